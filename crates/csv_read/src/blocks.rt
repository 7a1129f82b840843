//! A text in blocks, which are freed behind its reader.
ghost use Rattle.std.specs.Prelude.{◌≡◌, ◌≤◌, ◌<◌, ◌++◌, All, IfOk, OnOk, vec_len};
ghost use Rattle.csv_read.specs.TextBlocks.{IsFilled};
ghost use Rattle.csv_read.specs.declared.blocks.TheConstants.{BLOCK};

use std::alloc::Global;
use std::io;
use std::io::Read;
use unit_pass::NoMemory;

/// How many bytes a block has at most. A text that has no more stays as it is.
const BLOCK: usize = 1 << 20;

/// A text that is read once, in blocks, of which each is freed once the next one is begun. It may go to another thread.
#[derive(Drop)]
pub struct TextBlocks {
    // The blocks behind this one, the last one first.
    later: Vec<Vec<u8>>,
    block: Vec<u8>,
    at: usize,
    ghost within: { at ≤ vec_len block },
    ghost filled: { All IsFilled later.items },
}

/// Cuts the last block off a text.
fn last_block(text: &mut Vec<u8>) -> Result<Vec<u8>, NoMemory>
    requires { BLOCK < vec_len text.old }
    ensures cut { IfOk result (λ last. text.old.items ≡ text.new.items ++ last.items) }
    ensures some { IfOk result IsFilled }
    ensures shorter { OnOk result (vec_len text.new < vec_len text.old) }
{
    let at = (text.len() - 1) / BLOCK * BLOCK;
    let last = text.split_off(at)?;
    text.shrink_to_fit();
    Ok(last)
}

impl TextBlocks {
    ghost use Rattle.std.specs.Prelude.{◌≡◌, ◌++◌, [], IfOk, drop, vec_len};
    ghost use Rattle.csv_read.specs.TextBlocks.{later_bytes};

    /// The text, of which nothing is read yet.
    pub(crate) fn new(alloc: Global, text: Vec<u8>) -> Result<TextBlocks, NoMemory>
        ensures { IfOk result (λ blocks. drop blocks.at blocks.block.items ++ later_bytes blocks.later.items ≡ text.items) }
    {
        let mut block = text;
        let mut later = Vec::new(alloc);
        while block.len() > BLOCK {
            later.push(last_block(&mut block)?)?;
        }
        Ok(TextBlocks {
            later,
            block,
            at: 0,
        })
    }

    /// Begins the next block where this one is read.
    fn go_on(&mut self)
        ensures left { drop self.new.at self.new.block.items ++ later_bytes self.new.later.items
            ≡ drop self.old.at self.old.block.items ++ later_bytes self.old.later.items }
        ensures some { self.new.at ≡ vec_len self.new.block → self.new.later.items ≡ [] }
    {
        if self.at < self.block.len() {
            return;
        }
        if let Some(block) = self.later.pop() {
            self.block = block;
            self.at = 0;
        }
    }
}

impl Read for TextBlocks {
    ghost use Rattle.std.specs.Prelude.{◌++◌, drop, Some};
    ghost use Rattle.csv_read.specs.TextBlocks.{later_bytes};

    ghost remaining = { λ blocks. Some (drop blocks.at blocks.block.items ++ later_bytes blocks.later.items) };

    fn read(&mut self, buf: &mut [u8]) -> io::Result<usize> {
        self.go_on();
        let mut rest = &self.block.as_slice()[self.at..];
        let count = rest.read(buf)?;
        self.at += count;
        Ok(count)
    }
}
