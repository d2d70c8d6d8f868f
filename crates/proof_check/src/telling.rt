// The lines that tell a fault.
ghost use Rattle.std.specs.Prelude.{◌≡◌, ◌++◌, IfOk, OnOk};
ghost use Rattle.sy_base.specs.CodeName.{code_name};
ghost use Rattle.proof_check.specs.Faults.{after_code, ended_line, fault_line, fault_lines};

use binding_terms::NoMemory;
use itoa::Buffer;
use proof_lexer::source_line;
use std::alloc::Global;
use sy_base::Fault;

/// Appends a line and a line feed.
fn push_line(text: &mut Vec<u8>, line: &[u8]) -> Result<(), NoMemory>
    ensures { OnOk result (text.new.items ≡ text.old.items ++ ended_line line.now) }
{
    text.extend_from_slice(line)?;
    text.push(b'\n')?;
    Ok(())
}

/// Appends what stands after a code: a detail after a colon and a blank, or nothing where the detail is empty.
fn push_after_code(text: &mut Vec<u8>, detail: &[u8]) -> Result<(), NoMemory>
    ensures { OnOk result (text.new.items ≡ text.old.items ++ after_code detail.now) }
{
    if detail.len() == 0 {
        return Ok(());
    }
    text.extend_from_slice(b": ")?;
    text.extend_from_slice(detail)?;
    Ok(())
}

/// The line that tells a fault, without its line feed.
fn fault_line(alloc: Global, fault: &Fault) -> Result<Vec<u8>, NoMemory>
    ensures { IfOk result (λ text. text.items ≡ fault_line fault.now.line (code_name fault.now.code) fault.now.detail) }
{
    let mut digits = Buffer::new();
    let mut text = Vec::from_slice(alloc, b"line ")?;
    text.extend_from_slice(digits.format(fault.line).as_bytes())?;
    text.extend_from_slice(b": ")?;
    text.extend_from_slice(fault.code.name().as_bytes())?;
    push_after_code(&mut text, fault.detail.bytes())?;
    Ok(text)
}

/// The line that tells a fault and the line of the source at which it stands, each with a line feed.
pub(crate) fn fault_lines(alloc: Global, source: &[u8], fault: &Fault) -> Result<Vec<u8>, NoMemory>
    ensures { IfOk result (λ text. text.items ≡ fault_lines source.now fault.now.line (code_name fault.now.code) fault.now.detail) }
{
    let mut text = Vec::new(alloc);
    let line = fault_line(alloc, fault)?;
    push_line(&mut text, &line)?;
    push_line(&mut text, source_line(source, fault.line))?;
    Ok(text)
}
