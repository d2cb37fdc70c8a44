use ds_port::{FailsAt, MemSource, NeverFails};
use ds_text::{LineEnd, LineFault, Lines};
use ds_value::Bytes;
use std::alloc::Global;
use std::test::Fail;

/// All lines, a `|` behind each.
fn lines_of(alloc: Global, text: &[u8]) -> Result<Bytes, Fail> {
    let mut lines = Lines::new(alloc, MemSource::new(text.to_vec(alloc)?, NeverFails));
    let mut all = Bytes::new(alloc);
    let mut line = Bytes::new(alloc);
    for _ in 0..=text.len() {
        match lines.next_line(&mut line)? {
            LineEnd::End => return Ok(all),
            LineEnd::Line => {}
        }
        all.append(line.as_slice())?;
        all.push(b'|')?;
    }
    Err(Fail::from("no end"))
}

static TEXTS: [(&str, &str); 10] = [
    ("", ""),
    ("\n", "|"),
    ("\r", "|"),
    ("a", "a|"),
    ("a\n", "a|"),
    ("a\r\nb", "a|b|"),
    ("a\r\r\n", "a\r|"),
    ("a\rb\n", "a\rb|"),
    ("a\n\nb\n", "a||b|"),
    ("\n\r\n", "||"),
];

#[test]
fn lines_end_at_their_newlines(rt: HostRuntime) -> Result<(), Fail> {
    for (text, wanted) in &TEXTS {
        let all = lines_of(rt.alloc(), text.as_bytes())?;
        assert!(rt; all.as_slice() == wanted.as_bytes(), "{text:?}");
    }
    Ok(())
}

/// Whether so many bytes of a line are kept, and the next line is read whole.
fn is_cut(alloc: Global, count: usize, kept: usize) -> Result<bool, Fail> {
    let mut text = vec![in alloc; b'x'; count]?;
    text.extend_from_slice(b"\r\nnext")?;
    let mut lines = Lines::new(alloc, MemSource::new(text, NeverFails));
    let mut line = Bytes::new(alloc);
    let first = lines.next_line(&mut line)?;
    let is_kept = line.as_slice().len() == kept && line.as_slice().last() == Some(&b'x');
    let second = lines.next_line(&mut line)?;
    let is_next = line.as_slice() == b"next".as_slice();
    let end = lines.next_line(&mut line)?;
    Ok(
        is_kept
            && is_next
            && first == LineEnd::Line
            && second == LineEnd::Line
            && end == LineEnd::End,
    )
}

#[test]
fn a_long_line_is_cut(rt: HostRuntime) -> Result<(), Fail> {
    let alloc = rt.alloc();
    assert!(rt; is_cut(alloc, 2_097_151, 2_097_151)?);
    assert!(rt; is_cut(alloc, 2_097_153, 2_097_153)?);
    assert!(rt; is_cut(alloc, 2_097_154, 2_097_153)?);
    Ok(())
}

#[test]
fn a_failing_read_is_a_device_fault(rt: HostRuntime) -> Result<(), Fail> {
    let alloc = rt.alloc();
    let failures = FailsAt::new(vec![in alloc; 1]?);
    let mut lines = Lines::new(alloc, MemSource::new(b"a\nb".to_vec(alloc)?, failures));
    let mut line = Bytes::new(alloc);
    assert_eq!(rt; lines.next_line(&mut line)?, LineEnd::Line);
    assert_eq!(rt; lines.next_line(&mut line), Err(LineFault::Device));
    assert!(rt; lines.into_inner().has_failed());
    Ok(())
}
