use am_term::NoMemory;

/// Adds a line of a part's text and the byte that ends it. A line that ends with `\` isn't ended;
/// `{3*(}` stands for `(((`, and between such braces a `/` is the end of a line.
pub fn push_line(text: &mut Vec<u8>, line: &str) -> Result<(), NoMemory> {
    match line.strip_suffix('\\') {
        Some(open) => push_expanded(text, open),
        None => {
            push_expanded(text, line)?;
            text.push(b'\n')?;
            Ok(())
        }
    }
}

fn push_expanded(text: &mut Vec<u8>, line: &str) -> Result<(), NoMemory> {
    for part in line.split('{') {
        match part.split_once('}') {
            Some((repeat, behind)) => {
                push_repeated(text, repeat)?;
                text.extend_from_slice(behind.as_bytes())?;
            }
            None => text.extend_from_slice(part.as_bytes())?,
        }
    }
    Ok(())
}

fn push_repeated(text: &mut Vec<u8>, repeat: &str) -> Result<(), NoMemory> {
    let Some((count, bytes)) = repeat.split_once('*') else {
        return Ok(());
    };
    let count = match count.parse::<u32>() {
        Ok(count) => count,
        Err(_) => 0,
    };
    for _ in 0..count {
        push_bytes(text, bytes.as_bytes())?;
    }
    Ok(())
}

fn push_bytes(text: &mut Vec<u8>, bytes: &[u8]) -> Result<(), NoMemory> {
    for byte in bytes {
        text.push(if *byte == b'/' { b'\n' } else { *byte })?;
    }
    Ok(())
}
