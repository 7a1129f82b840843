//! How the source and the sinks of a case behave.
use edge_io::{Got, MemSink, MemSource, Source};
use std::alloc::{AllocError, Global};
use std::io;
use std::io::{Error, ErrorKind};

/// How many bytes a call moves at most, for how many there is room, and which call fails. Calls are numbered from 1, so call 0 is none.
#[derive(Clone, Copy)]
pub struct End {
    pub step: usize,
    pub room: usize,
    pub fails: usize,
}

impl End {
    /// A source or a sink that moves this many bytes a call, has room for a million, and never fails.
    pub fn new(step: usize) -> End {
        End {
            step,
            room: 1_000_000,
            fails: 0,
        }
    }

    /// Takes a word such as `step=2`, and says whether it is of this form. A step is at least 1.
    fn take_word(&mut self, word: &str) -> bool {
        let Some((name, number)) = word.split_once('=') else {
            return false;
        };
        let Ok(number) = number.parse::<usize>() else {
            return false;
        };
        match name {
            "step" if number > 0 => self.step = number,
            "room" => self.room = number,
            "fails" => self.fails = number,
            _ => return false,
        }
        true
    }

    /// Takes words such as `step=2 fails=3`, and says whether they are of this form.
    pub fn take(&mut self, text: &str) -> bool {
        for word in text.split(' ') {
            if !self.take_word(word) {
                return false;
            }
        }
        true
    }

    /// The calls that fail.
    fn failing(self, alloc: Global) -> Result<Vec<u64>, AllocError> {
        Vec::from_slice(alloc, &[self.fails as u64])
    }

    /// A source of this input that behaves so.
    pub fn source(self, alloc: Global, input: Vec<u8>) -> Result<MemSource, AllocError> {
        let fails = self.failing(alloc)?;
        Ok(MemSource::new(input, self.step.max(1), fails))
    }

    /// A sink that behaves so.
    pub fn sink(self, alloc: Global) -> io::Result<MemSink> {
        match MemSink::new(alloc, self.room, self.step.max(1), self.failing(alloc)?) {
            Ok(sink) => Ok(sink),
            Err(_) => Err(Error::from(ErrorKind::OutOfMemory)),
        }
    }

    /// Whether a source that is to fail at its first call was never called.
    pub fn is_unread(self, source: &mut MemSource) -> bool {
        let mut room = [0; 1];
        self.fails == 1 && matches!(source.read(&mut room), Got::Failed)
    }
}
