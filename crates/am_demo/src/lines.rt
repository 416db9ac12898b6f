ghost use Rattle.std.specs.Prelude.{◌≡◌, ◌++◌, ◌+◌, ◌^◌, ◌≤◌, ◌<◌, IfOk, OnOk};
ghost use Rattle.std.specs.Fmt.{decimal};
ghost use Rattle.am_demo.specs.Files.{digit_at as digit_of, five_digits, later_value, chain_value, routine_line as line_of_routine, function_line as line_of_function, axiom_line as line_of_axiom};

use am_term::NoMemory;
use std::alloc::Global;

/// The line that declares a routine.
#[tactic(auto, unfolding(crate::specs::Files::routine_line))]
pub fn routine_line(alloc: Global, i: u32) -> Result<Vec<u8>, NoMemory>
    ensures { IfOk result (λ line. line.items ≡ line_of_routine i) }
{
    let mut line = Vec::from_slice(alloc, b"(routine C")?;
    push_digits(&mut line, i)?;
    push_number(alloc, &mut line, b" (q) (c", i as usize)?;
    line.extend_from_slice(b" q))\n")?;
    Ok(line)
}

/// The line that declares a function.
#[tactic(auto, unfolding(crate::specs::Files::function_line))]
pub fn function_line(alloc: Global, i: u32) -> Result<Vec<u8>, NoMemory>
    ensures { IfOk result (λ line. line.items ≡ line_of_function i) }
{
    let mut line = Vec::new(alloc);
    push_number(alloc, &mut line, b"(function a", i as usize)?;
    line.extend_from_slice(b" (q) q)\n")?;
    Ok(line)
}

/// The line of an axiom.
#[tactic(auto, unfolding(crate::specs::Files::axiom_line))]
pub fn axiom_line(alloc: Global, i: u32) -> Result<Vec<u8>, NoMemory>
    requires { 1 ≤ i }
    ensures { IfOk result (λ line. line.items ≡ line_of_axiom i) }
{
    let mut line = Vec::new(alloc);
    push_number(alloc, &mut line, b"(axiom (all ((x q)) (= (a", i as usize)?;
    line.extend_from_slice(b" x) ")?;
    push_value(alloc, &mut line, i)?;
    line.extend_from_slice(b")))\n")?;
    Ok(line)
}

// What the function of a number equals.
fn push_value(alloc: Global, line: &mut Vec<u8>, i: u32) -> Result<(), NoMemory>
    requires { 1 ≤ i }
    ensures { OnOk result (line.new.items ≡ line.old.items ++ chain_value i) }
{
    if i == 1 {
        line.extend_from_slice(b"(c1 x)")?;
        return Ok(());
    }
    push_later(alloc, line, i - 1)
}

// What the function behind that of a number equals.
#[tactic(auto, unfolding(crate::specs::Files::later_value))]
fn push_later(alloc: Global, line: &mut Vec<u8>, j: u32) -> Result<(), NoMemory>
    requires { j + 1 < 2 ^ 32 }
    ensures { OnOk result (line.new.items ≡ line.old.items ++ later_value j) }
{
    push_number(alloc, line, b"(c", j as usize + 1)?;
    push_number(alloc, line, b" (a", j as usize)?;
    line.extend_from_slice(b" x))")?;
    Ok(())
}

// The last five digits of a number.
fn push_digits(line: &mut Vec<u8>, n: u32) -> Result<(), NoMemory>
    ensures { OnOk result (line.new.items ≡ line.old.items ++ five_digits n) }
{
    let digits = [
        digit(n, 10_000),
        digit(n, 1_000),
        digit(n, 100),
        digit(n, 10),
        digit(n, 1),
    ];
    line.extend_from_slice(&digits)?;
    Ok(())
}

// The digit of a number at a power of ten.
fn digit(n: u32, power: u32) -> u8
    requires { 1 ≤ power }
    ensures { result ≡ digit_of n power }
{
    48 + (n / power % 10) as u8
}

/// Puts some words and behind them a number in decimal at the end of a line.
pub fn push_number(
    alloc: Global,
    line: &mut Vec<u8>,
    words: &[u8],
    n: usize,
) -> Result<(), NoMemory>
    ensures { OnOk result (line.new.items ≡ line.old.items ++ words.now ++ decimal n) }
{
    line.extend_from_slice(words)?;
    line.extend_from_slice(n.to_string(alloc)?.as_bytes())?;
    Ok(())
}
