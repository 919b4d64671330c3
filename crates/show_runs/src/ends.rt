//! How runs end.

use joint_ir::{Outcome, Prop, naming};
use sqlite_items::Items;
use std::alloc::{AllocError, Global};
use std::io;

/// Which ends were seen.
#[derive(Drop)]
pub struct Ends {
    ended: bool,
    cut: bool,
    out_of_frames: bool,
    /// By the number of the property.
    broken: Items<bool>,
}

impl Ends {
    /// None yet, of runs of a program with so many properties.
    pub fn new(alloc: Global, properties: usize) -> Result<Ends, AllocError> {
        let mut broken = Items::new(alloc);
        for _ in 0..properties {
            broken.push(false)?;
        }
        Ok(Ends {
            ended: false,
            cut: false,
            out_of_frames: false,
            broken,
        })
    }

    /// One more.
    pub fn note(&mut self, outcome: Outcome) {
        match outcome {
            Outcome::Ended => self.ended = true,
            Outcome::Cut => self.cut = true,
            Outcome::OutOfFrames => self.out_of_frames = true,
            Outcome::Broken(prop) => {
                if (prop.0 as usize) < self.broken.len() {
                    self.broken.set(prop.0 as usize, true);
                }
            }
        }
    }

    /// All that were seen.
    pub fn print<R: Print + AllocGlobal>(&self, rt: &R, properties: &[Prop]) -> io::Result<()> {
        if self.ended {
            print!(rt; ", ends")?;
        }
        if self.cut {
            print!(rt; ", an assumption is 0")?;
        }
        if self.out_of_frames {
            print!(rt; ", out of frames")?;
        }
        for (property, broken) in properties.iter().zip(self.broken.as_slice()) {
            if *broken {
                let mut name = String::new(rt.alloc());
                naming::push_name(&mut name, property)?;
                print!(rt; ", {name}")?;
            }
        }
        println!(rt; "")
    }
}
