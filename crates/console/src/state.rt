// What the console keeps from command to command.
use super::regions::Regions;
use super::site::Site;
use command::{Command, RegionCommand};
use session::{Request, say_description, say_format, say_pixel};
use std::alloc::{AllocError, Global};
use transfer::Call;

#[derive(Drop)]
pub struct State {
    site: Site,
    regions: Regions,
}

impl State {
    pub(crate) fn new() -> State {
        State {
            site: Site::Bare,
            regions: Regions::new(),
        }
    }

    // Obeys a command, and answers in words.
    pub(crate) fn obey(&mut self, heap: Global, command: Command) -> Result<String, AllocError> {
        match command {
            Command::Line(kind, size) => self.site.lay(heap, kind, size),
            Command::Write(bytes) => self.call(heap, Call::Write(bytes)),
            Command::Read(most) => self.call(heap, Call::Read(most)),
            Command::Flush => self.call(heap, Call::Flush),
            Command::Queue => self.site.request(heap, Request::Queue),
            Command::Carry(bytes) => self.site.request(heap, Request::Carry(bytes)),
            Command::Pixel(format, native) => say_pixel(heap, format, native),
            Command::Describe(format) => say_description(heap, format),
            Command::Recognize(bytes) => say_format(heap, &bytes),
        }
    }

    // Makes a call on the line, and answers in words.
    fn call(&mut self, heap: Global, call: Call) -> Result<String, AllocError> {
        self.site.request(heap, Request::Make(call))
    }

    // Changes a region as it is asked, and answers its boxes in words.
    pub(crate) fn change(
        &mut self,
        heap: Global,
        asked: RegionCommand,
    ) -> Result<String, AllocError> {
        self.regions.change(heap, asked.name, asked.change)
    }
}
