//! The texts of scenario files, at random.

use crate::random::Random;
use crate::texts::{push_decimal, push_hexadecimal};
use std::alloc::{AllocError, Global};

/// A scenario file for `run` that is being written.
#[derive(Drop)]
pub struct Scenario {
    /// Its text.
    pub text: Vec<u8>,
    random: Random,
    harts: u64,
    pages: u64,
    /// How many of the mappings that are taken away are not served.
    left: u64,
    steps: u64,
}

impl Scenario {
    /// The head of a file: the harts, each the home of a space, with pages of 4 KiB that are 2 MiB
    /// apart. Of a hundred unmappings `left` are not served.
    pub fn begin(alloc: Global, random: Random, left: u64) -> Result<Scenario, AllocError> {
        let mut random = random;
        let harts = random.below(8) + 1;
        let pages = random.below(40) + 8;
        let mut scenario = Scenario {
            text: Vec::new(alloc),
            random,
            harts,
            pages,
            left,
            steps: 0,
        };
        scenario.head()?;
        Ok(scenario)
    }

    fn add(&mut self, text: &[u8]) -> Result<(), AllocError> {
        self.text.extend_from_slice(text)
    }

    fn number(&mut self, number: u64) -> Result<(), AllocError> {
        push_decimal(&mut self.text, number)
    }

    fn head(&mut self) -> Result<(), AllocError> {
        self.add(b"harts = ")?;
        self.number(self.harts)?;
        self.add(b"\nspares = [")?;
        for _ in 0..self.harts {
            self.number(self.pages.saturating_add(2))?;
            self.add(b", ")?;
        }
        self.add(b"]\nspaces = [")?;
        for hart in 0..self.harts {
            self.add(b"\"")?;
            self.number(hart)?;
            self.add(b" ")?;
            self.number(hart + 1)?;
            self.add(b"\", ")?;
        }
        self.add(b"]\nsteps = [\n")
    }

    /// The first words of a step: its hart, and what it does.
    fn step(&mut self, hart: u64, words: &[u8]) -> Result<(), AllocError> {
        self.steps = self.steps.saturating_add(1);
        self.add(b"\"")?;
        self.number(hart)?;
        self.add(b" ")?;
        self.add(words)
    }

    fn end(&mut self) -> Result<(), AllocError> {
        self.add(b"\",\n")
    }

    /// A step of which the words after its name are numbers.
    fn plain(&mut self, hart: u64, words: &[u8], numbers: &[u64]) -> Result<(), AllocError> {
        self.step(hart, words)?;
        for number in numbers {
            self.add(b" ")?;
            self.number(*number)?;
        }
        self.end()
    }

    fn address(&mut self, page: u64) -> Result<(), AllocError> {
        self.add(b"0x")?;
        push_hexadecimal(&mut self.text, page << 21)
    }

    /// The next store that maps a page, to a frame of its own or to another.
    fn map(&mut self, hart: u64, page: u64) -> Result<(), AllocError> {
        let frame = page << 4 | self.random.below(16) | 1 << 12;
        self.step(hart, b"map ")?;
        self.number(hart)?;
        self.add(b" 4K:")?;
        self.address(page)?;
        self.add(b" 0x")?;
        push_hexadecimal(&mut self.text, frame)?;
        let is_read_only = self.random.is_below(30);
        self.add(if is_read_only { b" ruad" } else { b" rwuad" })?;
        self.end()
    }

    /// An access, with the loads of its walk.
    fn access(&mut self, hart: u64, page: u64) -> Result<(), AllocError> {
        self.step(hart, b"begin u ")?;
        let stores = self.random.is_below(25);
        self.add(if stores { b"store " } else { b"load " })?;
        let offset = self.random.below(512) << 3;
        self.add(b"0x")?;
        push_hexadecimal(&mut self.text, page << 21 | offset)?;
        self.end()?;
        if self.random.is_below(35) {
            for _ in 0..3_u8 {
                self.step(hart, b"load")?;
                self.end()?;
            }
        }
        Ok(())
    }

    /// A page is unmapped or protected, and all harts are asked to drop it.
    fn take_away(&mut self, home: u64, page: u64) -> Result<(), AllocError> {
        let protects = self.random.is_below(30);
        self.step(home, if protects { b"protect " } else { b"unmap " })?;
        self.number(home)?;
        self.add(b" 4K:")?;
        self.address(page)?;
        self.add(if protects { b" ruad 0" } else { b" 0" })?;
        for hart in 1..self.harts {
            self.add(b",")?;
            self.number(hart)?;
        }
        self.end()?;
        if self.random.is_below(self.left) {
            return Ok(());
        }
        self.serve_all(home)
    }

    /// The other harts serve the order of ticket 0, and it is collected.
    fn serve_all(&mut self, home: u64) -> Result<(), AllocError> {
        for hart in (0..self.harts).filter(|hart| *hart != home) {
            self.plain(home, b"post", &[0, hart])?;
            self.plain(hart, b"take", &[home])?;
            self.plain(hart, b"servefence", &[])?;
            self.plain(hart, b"ack", &[])?;
            self.plain(home, b"collect", &[0, hart])?;
        }
        self.plain(home, b"ackself", &[0])?;
        self.plain(home, b"finish", &[0])
    }

    /// Some steps more.
    fn go_on(&mut self) -> Result<(), AllocError> {
        let hart = self.random.below(self.harts);
        let page = self.random.below(self.pages);
        let dice = self.random.below(100);
        if dice < 82 {
            self.access(hart, page)
        } else if dice < 89 {
            self.map(hart, page)
        } else if dice < 91 {
            self.take_away(hart, page)
        } else if dice < 97 {
            let space = self.random.below(self.harts);
            self.plain(hart, b"switch", &[space])
        } else if dice < 99 {
            self.step(hart, b"fence x0 ")?;
            let asid = self.random.below(8);
            self.number(asid)?;
            self.end()
        } else {
            self.step(hart, b"flush all 0")?;
            self.end()
        }
    }

    /// The whole file, with so many steps or a few more.
    pub fn write(mut self, steps: u64) -> Result<Vec<u8>, AllocError> {
        for hart in 0..self.harts {
            self.plain(hart, b"switch", &[hart])?;
            for page in 0..self.pages.min(steps / 16 + 1) {
                for _ in 0..3_u8 {
                    self.map(hart, page)?;
                }
            }
        }
        for _ in 0..steps {
            if self.steps >= steps {
                break;
            }
            self.go_on()?;
        }
        self.add(b"]\n")?;
        Ok(self.text)
    }
}

/// A file for `walk`: some frames, words at random, and accesses.
pub fn walk_file(alloc: Global, random: Random, steps: u64) -> Result<Vec<u8>, AllocError> {
    let mut random = random;
    let mut text = Vec::new(alloc);
    let frames = random.below(60) + 4;
    text.extend_from_slice(b"frames = [")?;
    for frame in 0..frames {
        text.extend_from_slice(b"\"0x")?;
        push_hexadecimal(&mut text, 0x8_0000 + frame)?;
        text.extend_from_slice(b"\", ")?;
    }
    text.extend_from_slice(b"]\nwords = [\n")?;
    for _ in 0..frames * 4 {
        text.extend_from_slice(b"\"0x")?;
        push_hexadecimal(&mut text, 0x8_0000 + random.below(frames))?;
        text.extend_from_slice(b" ")?;
        push_decimal(&mut text, random.below(8))?;
        text.extend_from_slice(b" 0x")?;
        let bits = if random.is_below(70) {
            1
        } else {
            0xC0 | random.below(64)
        };
        push_hexadecimal(&mut text, (0x8_0000 + random.below(frames)) << 10 | bits)?;
        text.extend_from_slice(b"\",\n")?;
    }
    text.extend_from_slice(b"]\nsteps = [\n")?;
    for _ in 0..steps {
        text.extend_from_slice(if random.is_below(80) {
            b"\"u load 0x"
        } else {
            b"\"s store 0x"
        })?;
        let (high, middle, low) = (random.below(8), random.below(8), random.below(8));
        push_hexadecimal(
            &mut text,
            high << 30 | middle << 21 | low << 12 | random.below(512),
        )?;
        text.extend_from_slice(b"\",\n")?;
    }
    text.extend_from_slice(b"]\n")?;
    Ok(text)
}
