use am_term::NoMemory;
use std::alloc::Global;

/// The text without its comments, and with an empty line before each heading.
pub fn without_comments(alloc: Global, text: &str) -> Result<String, NoMemory> {
    let mut out = String::new(alloc);
    for line in text.lines() {
        if line.starts_with("== ") {
            out.push_str("\n")?;
        }
        if !line.starts_with('#') {
            writeln!(out, "{line}")?;
        }
    }
    Ok(out)
}

/// The text with what stands in braces written out: `{3*ab}` is `ababab`; `{tab}`, `{return}` and `{line}` are the
/// bytes 9, 13 and 10; other braces are nothing.
pub fn expanded(alloc: Global, text: &str) -> Result<String, NoMemory> {
    let mut out = String::new(alloc);
    for piece in text.split('{') {
        match piece.split_once('}') {
            None => out.push_str(piece)?,
            Some((inner, behind)) => {
                push_braced(inner, &mut out)?;
                out.push_str(behind)?;
            }
        }
    }
    Ok(out)
}

fn push_braced(inner: &str, out: &mut String) -> Result<(), NoMemory> {
    match inner {
        "tab" => out.push_str("\t")?,
        "return" => out.push_str("\r")?,
        "line" => out.push_str("\n")?,
        _ => {
            let (count, text) = inner.split_once('*').unwrap_or(("", ""));
            for _ in 0..count.parse::<u16>().unwrap_or(0) {
                out.push_str(text)?;
            }
        }
    }
    Ok(())
}
