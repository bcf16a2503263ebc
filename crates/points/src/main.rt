// Runs the points that are not proved, and writes a line for each to standard output.
#![tactic(auto)]

use checksum::{crc32c, fmix32};
use clock::Clock;
use entry::Refusal;
use frame::{MAX_FRAME, write_get, write_not_found, write_value};
use std::io;

fn print_bytes(rt: &impl Print, bytes: &[u8]) -> io::Result<()> {
    for byte in bytes {
        print!(rt; "{byte:02x}")?;
    }
    println!(rt)
}

fn print_word(rt: &impl Print, word: u32) -> io::Result<()> {
    println!(rt; "{word:08x}")
}

fn print_checksum(rt: &impl Print, name: &str, bytes: &[u8]) -> io::Result<()> {
    print!(rt; "crc32c of {name}: ")?;
    print_word(rt, crc32c(bytes))
}

// RFC 3720, B.4; the last is its SCSI read command.
fn print_checksums(rt: &impl Print) -> io::Result<()> {
    print_checksum(rt, "32 bytes of 00", &[0u8; 32])?;
    print_checksum(rt, "32 bytes of ff", &[255u8; 32])?;
    print_checksum(
        rt,
        "00 to 1f",
        b"\x00\x01\x02\x03\x04\x05\x06\x07\x08\x09\x0a\x0b\x0c\x0d\x0e\x0f\x10\x11\x12\x13\x14\x15\x16\x17\x18\x19\x1a\x1b\x1c\x1d\x1e\x1f",
    )?;
    print_checksum(
        rt,
        "1f to 00",
        b"\x1f\x1e\x1d\x1c\x1b\x1a\x19\x18\x17\x16\x15\x14\x13\x12\x11\x10\x0f\x0e\x0d\x0c\x0b\x0a\x09\x08\x07\x06\x05\x04\x03\x02\x01\x00",
    )?;
    print_checksum(
        rt,
        "the read command",
        b"\x01\xc0\x00\x00\x00\x00\x00\x00\x00\x00\x00\x00\x00\x00\x00\x00\x14\x00\x00\x00\x00\x00\x04\x00\x00\x00\x00\x14\x00\x00\x00\x18\x28\x00\x00\x00\x00\x00\x00\x00\x02\x00\x00\x00\x00\x00\x00\x00",
    )
}

fn print_clock(rt: &impl Print, clock: Clock) -> io::Result<()> {
    let phys = clock.phys;
    let logical = clock.logical;
    let node = clock.node;
    let skew = clock.skew;
    println!(rt; ", clock {phys} {logical} {node} {skew}")
}

// With the clock that is handed back, which shows the one that came in.
fn print_send_at_p(rt: &impl Print) -> io::Result<()> {
    print!(rt; "clock at L = 65535, send at P: ")?;
    let clock = Clock {
        phys: 1000,
        logical: 65535,
        node: 1,
        skew: 0,
    };
    let sent = clock.send(clock.phys);
    match sent.answer {
        Ok(_) => print!(rt; "a stamp")?,
        Err(refusal) => print!(rt; "{refusal}")?,
    }
    print_clock(rt, sent.clock)
}

// What a writer answered, and the checksum of the whole buffer that it was lent.
fn print_wrote(rt: &impl Print, wrote: Result<usize, Refusal>, out: &[u8]) -> io::Result<()> {
    match wrote {
        Ok(n) => print!(rt; "{n} bytes")?,
        Err(refusal) => print!(rt; "{refusal}")?,
    }
    print!(rt; ", buffer ")?;
    print_word(rt, crc32c(out))
}

fn print_get(rt: &impl Print) -> io::Result<()> {
    let mut out = [0u8; MAX_FRAME];
    print!(rt; "get k1: ")?;
    print_wrote(rt, write_get(b"k1", &mut out), &out)?;
    print_bytes(rt, &out[0..11])
}

fn print_not_found(rt: &impl Print) -> io::Result<()> {
    let mut out = [0u8; MAX_FRAME];
    print!(rt; "not found: ")?;
    print_wrote(rt, write_not_found(&mut out), &out)?;
    print_bytes(rt, &out[0..8])
}

fn print_length(rt: &impl Print, name: &str, n: usize) -> io::Result<()> {
    print!(rt; "{name} of {n}: ")
}

fn print_value(rt: &impl Print, value: &[u8]) -> io::Result<()> {
    let mut out = [0u8; MAX_FRAME];
    print_length(rt, "value", value.len())?;
    print_wrote(rt, write_value(value, &mut out), &out)
}

fn print_key(rt: &impl Print, key: &[u8]) -> io::Result<()> {
    let mut out = [0u8; MAX_FRAME];
    print_length(rt, "key", key.len())?;
    print_wrote(rt, write_get(key, &mut out), &out)
}

fn print_limits(rt: &impl Print) -> io::Result<()> {
    let value = [118u8; 513];
    print_value(rt, &value[0..512])?;
    print_value(rt, &value)?;
    let key = [107u8; 65];
    print_key(rt, &key[0..64])?;
    print_key(rt, &key)
}

fn print_mixed(rt: &impl Print) -> io::Result<()> {
    print!(rt; "fmix32(0): ")?;
    print_word(rt, fmix32(0))
}

fn main(rt: HostRuntime) -> io::Result<()> {
    print_checksums(&rt)?;
    print_send_at_p(&rt)?;
    print_get(&rt)?;
    print_not_found(&rt)?;
    print_limits(&rt)?;
    print_mixed(&rt)
}
