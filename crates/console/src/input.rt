// Lines of input, as bytes. Of a line that is too long only the start is kept, so that memory and
// work stay bounded whatever comes in.
ghost use Rattle.std.specs.Prelude.{◌≢◌, ◌+◌, ◌≤◌, length, All, IfOk, IfSome};

use std::alloc::{AllocError, Global};
use std::io;
use std::io::{BufRead, BufReader, Read};
use std::rt::Stdin;

// A line of more bytes is no command.
pub const LONGEST: usize = 200_000;

// How many bytes of a line are read at most: one more tells that it is too long.
const START: u64 = 200_001;

// How many bytes are asked of standard input at once: what stands behind them is left to others.
const BLOCK: usize = 4096;

// Standard input, line by line.
#[derive(Drop)]
pub struct Input {
    reader: BufReader<Stdin>,
    line: Vec<u8>,
}

impl Input {
    pub(crate) fn new(heap: Global, stdin: Stdin) -> Result<Input, AllocError> {
        // It fails only for want of memory.
        let reader = BufReader::with_capacity(heap, BLOCK, stdin).map_err(|_| AllocError)?;
        Ok(Input {
            reader,
            line: Vec::new(heap),
        })
    }

    // The next line without its end, or `None` at the end of the input; the last line may lack its end.
    // Of a line that is too long one byte more than the longest is kept, and the rest is passed over.
    pub(crate) fn next(&mut self) -> io::Result<Option<&[u8]>>
        ensures one_line { IfOk result (λ next. IfSome next (λ line. All (λ b. b ≢ 10) line.now)) }
        ensures bounded { IfOk result (λ next. IfSome next (λ line. length line.now ≤ LONGEST + 1)) }
    {
        self.line.clear();
        let mut start = self.reader.by_ref().take(START);
        if start.read_until(b'\n', &mut self.line)? == 0 {
            return Ok(None);
        }
        if self.line.ends_with(b"\n") {
            self.line.pop();
        }
        if self.line.len() > LONGEST {
            self.reader.skip_until(b'\n')?;
            // No more than that was read, which the reader's contract does not say.
            self.line.truncate(LONGEST + 1);
        }
        Ok(Some(&self.line))
    }
}
