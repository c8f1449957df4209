// Document 01, "Words and lookup": a table built by itself, and a reading by itself. Demand 3 is about these two.
#![tactic(auto)]

ghost use Rattle.std.specs.Prelude.{◌^◌, length};
ghost use Rattle.scope.specs.Lookup.{lookup_in};
ghost use Rattle.scope.specs.Alone.{BuiltAlone, ReadAlone};
ghost use Rattle.codes.specs.Reading.{Readable};
ghost use Rattle.alone.specs.Built.{BuiltTable, TableRead};

use builder::build_part;
use memory::clear_u32;
use scope::{Answer, Place, Refusal};
use words::weigh;

// The table in the first words of the workspace; its plane is called plane 0. The lengths are scanned once for the checks. The answer is
// the longest length, which a reading needs beside the table.
pub(crate) fn build_table(lengths: &[u8], workspace: &mut [u32]) -> Result<usize, Refusal>
    ensures { BuiltTable lengths.now workspace.old result workspace.new }
{
    if 16384 < lengths.len() {
        return Err(Refusal(4, Place::Nothing));
    }
    let code = weigh(lengths, 0)?;
    if workspace.len() < code.need {
        return Err(Refusal(11, Place::Nothing));
    }
    build_part(lengths, code.longest, workspace, 0, code.need);
    Ok(code.longest)
}

// A table built by itself.
pub fn build(lengths: &[u8], workspace: &mut [u32]) -> Answer
    ensures { BuiltAlone lengths.now workspace.old result workspace.new }
{
    build_table(lengths, workspace)?;
    Ok(())
}

// Reads the samples by a table in the workspace, m being its code's longest length, and clears the workspace; the samples too where
// a word fails.
pub(crate) fn read_built(
    workspace: &mut [u32],
    m: usize,
    payload: &[u8],
    samples: &mut [u16],
) -> Answer
    requires { Readable (lookup_in workspace.old m payload.now) (2 ^ 16) 0 (length samples.old) }
    ensures { TableRead (lookup_in workspace.old m payload.now) workspace.old samples.old result workspace.new samples.new }
{
    let reached = chain::words(workspace, m, payload, 0, samples);
    clear_u32(workspace);
    if reached.is_err() {
        buffer::clear(samples);
        return Err(Refusal(14, Place::Plane(0)));
    }
    Ok(())
}

// A reading by itself: as many samples as the buffer has places.
pub fn read(lengths: &[u8], payload: &[u8], workspace: &mut [u32], samples: &mut [u16]) -> Answer
    ensures { ReadAlone lengths.now payload.now workspace.old samples.old result workspace.new samples.new }
{
    if 268435456 < samples.len() {
        return Err(Refusal(4, Place::Nothing));
    }
    let m = build_table(lengths, workspace)?;
    read_built(workspace, m, payload, samples)
}
