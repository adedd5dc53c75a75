use super::*;
use std::alloc::Global;
use std::process::Abort;
use std::test::Fail;

const INSERT: &[u8] = b"\x21\x00\x00\x00\x03INSERT INTO t1(id,u) VALUES(1,7)";

const PING: &[u8] = &[1, 0, 0, 0, 0x0e];

/// An INSERT, a PING, an empty payload, a QUIT, and three bytes of a header.
const STREAM: &[u8] =
    b"\x21\x00\x00\x00\x03INSERT INTO t1(id,u) VALUES(1,7)\x01\x00\x00\x00\x0e\x00\x00\x00\x00\x01\x00\x00\x00\x01\x01\x00\x00";

const PAYLOADS: &[&[u8]] = &[
    b"\x03INSERT INTO t1(id,u) VALUES(1,7)",
    b"\x0e",
    b"",
    b"\x01",
];

/// Adds what a feed gave to what was read before.
fn feed_into(framer: &mut Framer, packets: &mut Vec<Packet>, piece: &[u8]) -> Result<(), Fail> {
    let fed = framer
        .feed(piece)
        .ok()
        .ok_or("no fault stands in the stream")?;
    for packet in fed {
        packets.push(packet)?;
    }
    Ok(())
}

fn assert_payloads(rt: &impl Abort, packets: &[Packet]) {
    assert_eq!(rt; packets.len(), PAYLOADS.len());
    for (packet, payload) in packets.iter().zip(PAYLOADS) {
        assert_eq!(rt; packet.seq, 0);
        assert_eq!(rt; packet.payload.as_slice(), *payload);
    }
}

#[test]
fn the_same_packets_wherever_the_stream_is_cut(rt: HostRuntime) -> Result<(), Fail> {
    for at in 0..=STREAM.len() {
        let (front, back) = STREAM.split_at(at);
        let mut framer = Framer::new(rt.alloc());
        let mut packets = Vec::new(rt.alloc());
        feed_into(&mut framer, &mut packets, front)?;
        feed_into(&mut framer, &mut packets, back)?;
        assert_payloads(&rt, &packets);
        assert_eq!(rt; framer.need(), 1);
    }
    Ok(())
}

#[test]
fn the_same_packets_byte_by_byte(rt: HostRuntime) -> Result<(), Fail> {
    let mut framer = Framer::new(rt.alloc());
    let mut packets = Vec::new(rt.alloc());
    for byte in STREAM {
        feed_into(&mut framer, &mut packets, &[*byte])?;
    }
    assert_payloads(&rt, &packets);
    Ok(())
}

/// How many packets stand before the fault of a stream, and the fault.
fn fault_of(alloc: Global, bytes: &[u8]) -> Option<(usize, FaultCause)> {
    match Framer::new(alloc).feed(bytes) {
        Ok(_) => None,
        Err(fault) => Some((fault.before.as_slice().len(), fault.cause)),
    }
}

#[test]
fn faults_are_found_with_the_header(rt: HostRuntime) {
    let alloc = rt.alloc();
    assert!(rt; fault_of(alloc, &[0, 0, 16, 0]).is_none());
    for (bytes, before, cause) in [
        (
            &[1, 0, 16, 0][..],
            0,
            FaultCause::TooLong { len: 1_048_577 },
        ),
        (
            &[255, 255, 255, 5],
            0,
            FaultCause::TooLong { len: 16_777_215 },
        ),
        (&[1, 0, 0, 5, 0x0e], 0, FaultCause::Order { got: 5, due: 0 }),
        (
            &[1, 0, 0, 0, 0x0e, 1, 0, 0, 1],
            1,
            FaultCause::Order { got: 1, due: 0 },
        ),
    ] {
        assert!(rt; fault_of(alloc, bytes) == Some((before, cause)));
    }
}

#[test]
fn the_due_number_and_what_is_needed(rt: HostRuntime) -> Result<(), Fail> {
    let mut framer = Framer::new(rt.alloc());
    let mut packets = Vec::new(rt.alloc());
    assert_eq!(rt; framer.need(), 4);
    framer.expect(3);
    feed_into(&mut framer, &mut packets, &[2, 0])?;
    assert_eq!(rt; framer.need(), 2);
    feed_into(&mut framer, &mut packets, &[0, 3, 7])?;
    assert_eq!(rt; framer.need(), 1);
    feed_into(&mut framer, &mut packets, &[8])?;
    assert_eq!(rt; packets.len(), 1);
    assert_eq!(rt; packets[0].seq, 3);
    feed_into(&mut framer, &mut packets, PING)?;
    assert_eq!(rt; packets.len(), 2);
    Ok(())
}

#[test]
fn a_payload_is_framed(rt: HostRuntime) -> Result<(), Fail> {
    let framed = frame(rt.alloc(), b"\x03INSERT INTO t1(id,u) VALUES(1,7)", 0)?;
    assert_eq!(rt; framed.as_slice(), INSERT);
    let long = vec![in rt.alloc(); 9; 66_051]?;
    let framed = frame(rt.alloc(), &long, 4)?;
    assert_eq!(rt; framed.len(), 66_055);
    assert_eq!(rt; &framed[..5], [3, 2, 1, 4, 9].as_slice());
    Ok(())
}
