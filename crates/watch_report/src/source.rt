//! Where the text of a trace comes from.
ghost use Rattle.watch_report.specs.Sources.{left_of};

use crate::retry::read_retrying;
use std::io;
use std::io::Read;

/// A reader each of whose reads is tried again while it is interrupted, or without one a text.
#[derive(Drop)]
pub(crate) struct Source<'a, R> {
    pub text: &'a [u8],
    pub reader: Option<R>,
}

impl<R: Read> Read for Source<'_, R> {
    ghost remaining = { λ source. left_of (λ reader. R.remaining reader) source.text.now source.reader };

    fn read(&mut self, buffer: &mut [u8]) -> io::Result<usize> {
        match &mut self.reader {
            Some(reader) => read_retrying(reader, buffer),
            None => self.text.read(buffer),
        }
    }
}
