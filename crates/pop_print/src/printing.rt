ghost use Rattle.std.specs.Prelude.{◌≡◌, ◌++◌, [], OnOk, IfOk};
ghost use Rattle.pop_model.specs.Stacks.{variables_of};
ghost use Rattle.pop_print.specs.Ends.{AreFactsOf, IsToldInFull, IsAtEnd};
ghost use Rattle.pop_print.specs.Output.{end_text};

use crate::Facts;
use crate::counts::push_used;
use crate::full_end::FullEnd;
use crate::line::push_line;
use crate::sample::push_sample;
use crate::summary::push_summary;
use confluence_core::End;
use itoa::Buffer;
use pop_instance::Instance;
use pop_text::Output;
use std::alloc::{AllocError, Global};
use std::snapshot::Snapshot;

// Adds the text of an end: a summary if a grid was made, and otherwise the whole end.
fn push_text(
    alloc: Global,
    out: &mut Output,
    facts: &Facts,
    instance: &Instance,
    end: &End,
) -> Result<(), AllocError>
    requires facts { AreFactsOf facts.now instance.now }
    requires end { IsAtEnd instance.now end.now.cursors end.now.stuck end.now.values }
    ensures { OnOk result (out.new ≡ out.old ++ end_text facts.now instance.now
        end.now.cursors end.now.pops end.now.stuck) }
{
    // Read for its contract, which bounds the units, and so all names, by their type.
    let _units = instance.units();
    match facts {
        Facts::Made(side) => push_summary(out, *side, instance, end),
        Facts::Formula(_) | Facts::Orient(_) | Facts::Tree(_, _) => {
            FullEnd {
                facts,
                instance,
                end,
            }
            .push(alloc, out)
        }
    }
}

// About the number of bytes of the text. Each variable has a cursor, usually of one digit. It also
// has its name with a sign and a space, or a line of three numbers. There are a few more lines,
// and only these in a summary.
pub(crate) fn room_for(facts: &Facts, count: u32) -> usize {
    let digits = Buffer::new().format(count).len();
    let of_each = match facts {
        Facts::Formula(_) => digits + 4,
        Facts::Orient(_) | Facts::Tree(_, _) => 3 * digits + 7,
        Facts::Made(_) => 0,
    };
    count as usize * of_each + 128
}

/// The text of an end. If no event occurs, it has `s SAMPLE` and the lines of the sample.
/// Otherwise it has `s EXHAUSTED` and a line for each event that occurs. The cursors and the
/// number of pops follow. Printed numbers of variables, edges, vertices and events count from 1.
///
/// If a grid was made, it is a summary with these lines:
///
/// - the status;
/// - `grid` and the side;
/// - `stuck` and the number of events that occur, if there are any;
/// - `used`, the sum of the cursors and the largest cursor;
/// - `pops` and their number;
/// - `sum`, if no event occurs: the sum, over the vertices except the root, of the vertex times
///   its slot. Slots count from 1 here.
pub fn text(
    alloc: Global,
    facts: &Facts,
    instance: &Instance,
    end: &End,
) -> Result<Vec<u8>, AllocError>
    requires facts { AreFactsOf facts.now instance.now }
    requires end { IsAtEnd instance.now end.now.cursors end.now.stuck end.now.values }
    ensures { IfOk result (λ bytes. bytes.items
        ≡ end_text facts.now instance.now end.now.cursors end.now.pops end.now.stuck) }
{
    let count = instance.stacks().count();
    let mut out = Output::with_room(alloc, room_for(facts, count))?;
    push_text(alloc, &mut out, facts, instance, end)?;
    Ok(out.into_bytes())
}

/// The text of an end at which no event occurs, if no grid was made. The instance is not read, so
/// it may be dropped before; it had `count` variables.
pub fn text_of_sample(
    alloc: Global,
    facts: &Facts,
    of: Snapshot<Instance>,
    count: u32,
    end: &End,
) -> Result<Vec<u8>, AllocError>
    requires facts { AreFactsOf facts.now of.value }
    requires full { IsToldInFull facts.now }
    requires count { count ≡ variables_of of.value.stacks }
    requires end { IsAtEnd of.value end.now.cursors end.now.stuck end.now.values }
    requires sample { end.now.stuck ≡ [] }
    ensures { IfOk result (λ bytes. bytes.items
        ≡ end_text facts.now of.value end.now.cursors end.now.pops end.now.stuck) }
{
    let mut out = Output::with_room(alloc, room_for(facts, count))?;
    out.push(b"s SAMPLE\n")?;
    push_sample(alloc, &mut out, facts, of, end)?;
    push_used(&mut out, &end.cursors, count)?;
    push_line(&mut out, b"pops ", end.pops)?;
    Ok(out.into_bytes())
}
