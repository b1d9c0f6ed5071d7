// The console: reads commands from standard input, one on a line, and prints one line for each.
#![tactic(auto)]

mod input;
mod regions;
mod site;
mod state;

use command::{parse, parse_region};
use input::{Input, LONGEST};
use state::State;
use std::alloc::{AllocError, Global};

// The answer to a line. There are two readers, and the first asks for memory.
fn answer(heap: Global, state: &mut State, line: &[u8]) -> Result<String, AllocError> {
    if line.len() <= LONGEST {
        if let Some(command) = parse(heap, line)? {
            return state.obey(heap, command);
        }
        if let Some(asked) = parse_region(line) {
            return state.change(heap, asked);
        }
    }
    String::from_str(heap, "not understood")
}

// Prints one line for each of the input, and none for an empty one and for a comment.
fn main(rt: HostRuntime) -> anyhow::Result<()> {
    let heap = rt.alloc();
    let mut input = Input::new(heap, rt.stdin())?;
    let mut state = State::new();
    // It goes on to the end of the input; a count is the form that the kit has for such a loop.
    for _ in 0..u64::MAX {
        let Some(line) = input.next()? else {
            break;
        };
        if !line.is_empty() && !line.starts_with(b"#") {
            let text = answer(heap, &mut state, line)?;
            println!(rt; "{text}")?;
        }
    }
    Ok(())
}
