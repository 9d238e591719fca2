//! What a node fetches that missed what the others have forgotten: the text of a checkpoint, part by part.

ghost use Rattle.std.specs.Prelude.{◌≡◌, ◌≤◌, None, true, IfOk, OnOk, length, replicate};
ghost use Rattle.node_model.specs.Fetching.{nothing_of, is_wanted, is_held, with_part, first_missing, missing};
ghost use Rattle.node.specs.Places.{IsInPlaces};
ghost use Rattle.wire.specs.Parts.{parts_in, joined};

use std::alloc::{AllocError, Global};
use wire::{PART, Part, PartNumber, Position};

/// The text of a checkpoint that is fetched, with the parts of it that are there.
#[derive(Drop)]
pub struct Fetching {
    target: Position,
    // How many bytes the text has, as the parts that are held say; 0 while none is.
    total: u32,
    // The parts by their numbers; no places before the first has come.
    held: Vec<Option<Part>>,
    ghost places: { IsInPlaces total held.items },
}

impl Fetching {
    ghost use Rattle.node.specs.Fetching.{fetching_of};

    /// Nothing of the text of the checkpoint at this position is held yet.
    pub fn new(alloc: Global, target: Position) -> Fetching
        ensures { fetching_of result ≡ nothing_of target }
    {
        Fetching {
            target,
            total: 0,
            held: Vec::new(alloc),
        }
    }

    /// The position of the checkpoint.
    pub fn target(&self) -> Position
        ensures { result ≡ (fetching_of self.now).target }
    {
        self.target
    }

    /// Whether the part is of this text and isn't held yet.
    pub fn is_wanted(&self, part: &Part) -> bool
        ensures { result ≡ is_wanted (fetching_of self.now) part.now }
    {
        let is_as_long = self.total == 0 || self.total == part.total();
        part.position() == self.target && is_as_long && !self.is_held(part.number())
    }

    // Whether the part of this number is held.
    fn is_held(&self, number: PartNumber) -> bool
        ensures { result ≡ is_held (fetching_of self.now) number }
    {
        match self.held.get(usize::from(number.value())) {
            Some(part) => part.is_some(),
            None => false,
        }
    }

    /// A part that is wanted is held from now on. Its bytes aren't copied. Places are made for all with the first.
    pub fn hold(&mut self, alloc: Global, part: &Part) -> Result<(), AllocError>
        requires { is_wanted (fetching_of self.old) part.now ≡ true }
        ensures { OnOk result (fetching_of self.new ≡ with_part (fetching_of self.old) part.now) }
    {
        let shared = part.share()?;
        if self.total == 0 {
            self.held = empty_places(alloc, part.total())?;
            self.total = part.total();
        }
        let at = usize::from(part.number().value());
        self.held[at] = Some(shared);
        Ok(())
    }

    /// The lowest number of a part that is missing, if one is.
    pub fn missing(&self) -> Option<PartNumber>
        ensures { result ≡ missing (fetching_of self.now) }
    {
        let before = self.count_before();
        if before < self.held.len() {
            PartNumber::new(before as u8)
        } else {
            None
        }
    }

    // How many parts are held before the first that is missing.
    fn count_before(&self) -> usize
        ensures value { result ≡ first_missing (fetching_of self.now) }
        ensures within { result ≤ length self.now.held.items }
    {
        self.held.iter().take_while(|part| part.is_some()).count()
    }

    /// The text that the parts make, in one piece of memory.
    pub fn text(&self, alloc: Global) -> Result<Vec<u8>, AllocError>
        ensures { IfOk result (λ text. text.items ≡ joined (fetching_of self.now).held) }
    {
        let mut text = Vec::with_capacity(alloc, self.total as usize)?;
        for part in self.held.iter() {
            if let Some(part) = part {
                text.extend_from_slice(part.bytes())?;
            }
        }
        Ok(text)
    }
}

// A place for each part of a text of so many bytes.
fn empty_places(alloc: Global, total: u32) -> Result<Vec<Option<Part>>, AllocError>
    ensures { IfOk result (λ held. held.items ≡ replicate (parts_in total) None) }
{
    let count = (total as usize + PART - 1) / PART;
    let mut held = Vec::with_capacity(alloc, count)?;
    for _ in 0..count {
        held.push(None)?;
    }
    Ok(held)
}
