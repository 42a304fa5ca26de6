// From the bytes that were read to the bytes that are printed.
ghost use Rattle.std.specs.Prelude.{◌≡◌, ◌++◌, IfOk, string_bytes, OnOk};
ghost use Rattle.layouts.specs.Layouts.{layout_plan};
ghost use Rattle.makers.specs.Makers.{planned};
ghost use Rattle.lines.specs.Requests.{request_of};
ghost use Rattle.answers.specs.Answers.{asked as asked_of, plan_text, refusal_text, line_answer, answers};

use descriptor::{LONGEST, write};
use layouts::Layout;
use lines::{Request, split_line};
use masked::Refusal;
use orders::named;
use placement::{Placement, Shape, idle};
use std::alloc::{AllocError, Global};
use texts::push_hex;

// How many bytes of an input are read. The rest is ignored.
pub const LIMIT: usize = 4096;

// The layout that a line asks for.
fn asked(line: &[u8]) -> Result<Layout, Refusal>
    ensures { planned layout_plan result ≡ asked_of (request_of line.now) }
{
    let request = Request::read(line).ok_or(Refusal::Order)?;
    let shape = Shape {
        rows: request.rows,
        columns: request.columns,
    };
    named(request.letter, shape, request.inner)
}

// Appends the descriptor, the span and the idle count.
fn push_layout(out: &mut String, layout: &Layout) -> Result<(), AllocError>
    ensures { OnOk result (string_bytes out.new ≡ string_bytes out.old ++ plan_text (layout_plan layout.now)) }
{
    // The writer puts a descriptor into bytes that are lent to it.
    let mut bytes = [0u8; LONGEST];
    let len = write(layout, &mut bytes).unwrap();
    push_hex(out, &bytes[..len])?;
    let span = layout.span();
    let idle = idle(layout);
    writeln!(out, " {span} {idle}")
}

// Appends the refusal.
fn push_refusal(out: &mut String, refusal: Refusal) -> Result<(), AllocError>
    ensures { OnOk result (string_bytes out.new ≡ string_bytes out.old ++ refusal_text refusal) }
{
    let number = refusal.number();
    writeln!(out, "no {number}")
}

// Appends the answer to one line.
fn push_answer(out: &mut String, line: &[u8]) -> Result<(), AllocError>
    ensures { OnOk result (string_bytes out.new ≡ string_bytes out.old ++ line_answer line.now) }
{
    match asked(line) {
        Ok(layout) => push_layout(out, &layout),
        Err(refusal) => push_refusal(out, refusal),
    }
}

// The answers to all lines of the first 4,096 bytes of the input. It fails only for want of memory.
pub fn describe(heap: Global, input: &[u8]) -> Result<String, AllocError>
    ensures { IfOk result (λ text. string_bytes text ≡ answers input.now) }
{
    let mut out = String::new(heap);
    let mut rest = &input[..input.len().min(LIMIT)];
    // A line and what follows it come as one answer, and nothing is counted.
    while let Some((line, after)) = split_line(rest) {
        push_answer(&mut out, line)?;
        rest = after;
    }
    Ok(out)
}
