// What every line keeps to, whatever it holds back.
ghost use Rattle.line.specs.Rules.{Flushed, Opens, Read, State, Within, Wrote, told};
ghost use Rattle.std.specs.Prelude.{◌≡◌, length};

pub trait Line {
    // The bytes taken and not yet read, how many of them can be read now, and how many bytes a
    // write would take now.
    ghost state: { Self → State };

    // How many bytes are queued.
    fn queued(&self) -> usize
        ensures { result ≡ told (length (state self.now).queue) };

    // How many bytes can be read now.
    fn readable(&self) -> usize
        ensures { result ≡ told (state self.now).ready };

    // How many bytes a write would take now.
    fn free(&self) -> usize
        ensures { result ≡ told (state self.now).room };

    // Takes the first of `bytes` and answers how many.
    fn write(&mut self, bytes: &[u8]) -> usize
        ensures { Wrote bytes.now result (state self.old) (state self.new) };

    // Moves the oldest bytes to the start of `into` and answers how many.
    fn read(&mut self, into: &mut [u8]) -> usize
        ensures { Read into.old result into.new (state self.old) (state self.new) };

    // Hands on what was held back, so that something can be read unless nothing is queued.
    fn flush(&mut self)
        ensures { Flushed (state self.old) (state self.new) };

    // The two standing rules. Beyond these and the contracts above, a line may change what can be
    // read and what it would take however it likes.
    ghost within: { (x : Self) → Within (state x).queue (state x).ready };

    ghost opens: { (x : Self) → Opens (state x).queue (state x).room };
}
