// How fast movement messages are read.
use mvt_grammar::read_mvt;
use std::alloc::{AllocError, Global};
use std::io;
use std::time::Instant;

// The head of a message of four elements.
const MESSAGE: &[u8] = b"MVT\nLH123/27.DAIQA.MUC\nAD2355/0008 AA0930/0940 EA0105 APR ED1200\n";

// The head of a message without elements.
const FLIGHT: &[u8] = b"MVT\nLH123/27.DAIQA.MUC\n";

// The head and then lines that are passed over, this many bytes in all.
fn text_of(alloc: Global, head: &[u8], bytes: usize) -> Result<Vec<u8>, AllocError> {
    let mut text = head.to_vec(alloc)?;
    for at in head.len()..bytes {
        text.push(if at % 60 == 59 { b'\n' } else { b'X' })?;
    }
    Ok(text)
}

// Reads the text this many times, and prints how many texts and bytes are read in a second.
fn measure(rt: &HostRuntime, name: &str, text: &[u8], times: u64) -> io::Result<()> {
    let start = Instant::now(rt)?;
    let mut read: u64 = 0;
    for _ in 0..times {
        if read_mvt(text).is_ok() {
            read = read.saturating_add(1);
        }
    }
    let micros = u64::try_from(start.elapsed(rt)?.as_micros())
        .unwrap_or(u64::MAX)
        .max(1);
    let texts = times.saturating_mul(1_000_000) / micros;
    let bytes = texts.saturating_mul(text.len() as u64);
    println!(rt; "{name}: {read} read, {texts} texts a second, {bytes} bytes a second")
}

/// Reads a message of 300 bytes and a text of 4,000 bytes, each this many times.
pub fn measure_messages(rt: &HostRuntime, times: u64) -> io::Result<()> {
    let message = text_of(rt.alloc(), MESSAGE, 300)?;
    measure(rt, "messages of 300 bytes", message.as_slice(), times)?;
    let text = text_of(rt.alloc(), FLIGHT, 4000)?;
    measure(
        rt,
        "texts of 4000 bytes of lines that are passed over",
        text.as_slice(),
        times,
    )
}
