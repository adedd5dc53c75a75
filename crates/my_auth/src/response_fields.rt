/// The fields of a response, where they stand in the payload. An empty database is none.
#[derive(Clone, Copy)]
pub struct ResponseFields<'a> {
    pub capabilities: u32,
    pub greatest_packet: u32,
    pub charset: u8,
    pub user: &'a [u8],
    pub token: &'a [u8],
    pub database: Option<&'a [u8]>,
    pub plugin: Option<&'a [u8]>,
    pub attributes: Option<&'a [u8]>,
}
