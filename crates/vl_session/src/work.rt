use crate::purpose::Purpose;
use vl_commit::commit::Commit;
use vl_exec::program::Program;
use vl_port::tx_state::TxState;
use vl_values::reply::Reply;

/// What a client session has in hand.
#[derive(Drop)]
pub enum Work {
    /// No statement is in progress. A transaction may be open.
    Idle {
        tx: Option<TxState>,
    },
    /// A statement runs in its transaction.
    Running {
        tx: TxState,
        program: Program,
    },
    /// The transaction is committed; this reply comes with the end of the commit.
    Committing {
        commit: Commit,
        reply: Reply,
        purpose: Purpose,
    },
}
