//! A file that is stored in memory, with what a crash may change of it.

ghost use Rattle.std.specs.Prelude.{◌≡◌, ◌≤◌, ◌<◌, ◌+◌, ◌&&◌, ◌||◌, ◌++◌, ◌∷◌, [], Some, ℕ, max, option_map, length, take, drop, get_or, nat_le, nat_lt, OnOk, OnErr, IfOk, false};
ghost use Rattle.std.specs.Str.{bytes_eq};
ghost use Rattle.nr_spec_plans.specs.Disk.{bytes_of, written};
ghost use Rattle.nr_spec_crash.specs.Images as images;
ghost use Rattle.nr_ports.specs.Ports as ports;
ghost use Rattle.nr_ports.specs.Ports.{absent, at_rest, write_to, cut_by, synced, refilled, crashed, IsCrashed};

use nr_bytes::Memory;
use std::alloc::Global;
use std::marker::Model;

/// Places that were written.
#[derive(Drop)]
pub struct Range {
    from: usize,
    to: usize,
}

impl Model for Range {
    ghost use Rattle.nr_spec_plans.specs.Disk as disk;

    ghost Value = { disk.Range };

    ghost view = { λ r. record { from = r.from; to = r.to } };
}

impl Range {
    fn has(&self, place: usize) -> bool
        ensures { result ≡ nat_le self.now.from place && nat_lt place self.now.to }
    {
        self.from <= place && place < self.to
    }
}

// Whether a place is in one of these ranges.
fn is_in(place: usize, ranges: &[Range]) -> bool
    ensures { result ≡ images.is_in place ranges.now }
{
    ranges.iter().any(|range| range.has(place))
}

/// A name and its bytes, of which a read gives the first `len`. Those from there on are what the file has reached
/// since its last sync, so that a crash needs no room.
#[derive(Drop)]
pub struct File {
    name: String,
    bytes: Vec<u8>,
    there: bool,
    len: usize,
    least: usize,
    written: Vec<Range>,
}

impl Model for File {
    ghost use Rattle.std.specs.Prelude.{◌≡◌, ◌≤◌, string_bytes, length, false};
    ghost use Rattle.nr_ports.specs.Ports.{Named, stored_of};

    ghost Value = { Named };

    ghost view = { λ f. record {
      name = string_bytes f.name;
      stored = stored_of f.bytes.items f.there f.len f.least f.written.items;
    } };

    ghost invariant = { λ f. (f.len ≤ length f.bytes.items) × (f.least ≤ f.len) × (f.there ≡ false → f.len ≡ 0) };
}

impl File {
    /// No bytes, and not there.
    pub fn absent(alloc: Global, name: &str) -> Result<File, Memory>
        ensures { IfOk result (λ file. file ≡ record { name = name.now; stored = absent }) }
    {
        let name = String::from_str(alloc, name)?;
        Ok(File {
            name,
            bytes: Vec::new(alloc),
            there: false,
            len: 0,
            least: 0,
            written: Vec::new(alloc),
        })
    }

    pub fn is_named(&self, name: &str) -> bool
        ensures { result ≡ bytes_eq self.now.name name.now }
    {
        self.name.as_str() == name
    }

    /// What a read gives. `None` where it isn't there.
    pub fn bytes(&self) -> Option<&[u8]>
        ensures { option_map (λ bytes. bytes.now) result ≡ self.now.stored.file }
    {
        if self.there {
            Some(&self.bytes[..self.len])
        } else {
            None
        }
    }

    /// Holds these bytes, which are all on the disk.
    pub fn replace(&mut self, bytes: Vec<u8>)
        ensures { self.new ≡ record { name = self.old.name; stored = at_rest bytes.items } }
    {
        self.len = bytes.len();
        self.least = bytes.len();
        self.there = true;
        self.written.clear();
        self.bytes = bytes;
    }

    // Counts a write as begun: its range, and the length that it would give.
    fn begin_write(&mut self, at: usize, from: &[u8]) -> Result<(), Memory>
        requires { at ≤ length (bytes_of self.old.stored.file) }
        ensures ok { OnOk result (self.new
            ≡ record { name = self.old.name; stored = write_to false at from.now self.old.stored }) }
        ensures memory { OnErr result (self.new ≡ self.old) }
    {
        grow(&mut self.bytes, &mut self.written, at, from)
    }

    // Does a write that was begun.
    fn finish_write(&mut self, at: usize, from: &[u8])
        requires place { at ≤ length (bytes_of self.old.stored.file) }
        requires room { at + length from.now ≤ self.old.stored.loose.greatest }
        ensures { self.new ≡ record {
          name = self.old.name;
          stored = record {
            file = Some (written at from.now (bytes_of self.old.stored.file));
            loose = self.old.stored.loose;
          };
        } }
    {
        put_at(&mut self.bytes, at, from);
        self.len = self.len.max(at + from.len());
        self.there = true;
    }

    /// Writes, where that is to be done; else the write has only begun.
    pub fn write(&mut self, at: usize, from: &[u8], done: bool) -> Result<(), Memory>
        requires { at ≤ length (bytes_of self.old.stored.file) }
        ensures ok { OnOk result (self.new
            ≡ record { name = self.old.name; stored = write_to done at from.now self.old.stored }) }
        ensures memory { OnErr result (self.new ≡ self.old) }
    {
        self.begin_write(at, from)?;
        if done {
            self.finish_write(at, from);
        }
        Ok(())
    }

    /// Cuts, where that is to be done; else the cut has only begun.
    pub fn cut(&mut self, to: u64, done: bool)
        ensures { self.new ≡ record { name = self.old.name; stored = cut_by done to self.old.stored } }
    {
        let to = to as usize;
        self.least = self.least.min(to);
        if done {
            self.len = self.len.min(to);
            if to == 0 {
                self.there = true;
            }
        }
    }

    /// Puts on the disk what a read gives.
    pub fn sync(&mut self)
        ensures { self.new ≡ record { name = self.old.name; stored = synced self.old.stored } }
    {
        self.bytes.truncate(self.len);
        self.least = self.len;
        self.written.clear();
    }

    /// Leaves what a crash may leave: the undetermined bytes are those of a filling, taken round from a place on, and
    /// the length is the least and so many more, where it may. Says where the filling goes on.
    pub fn crash(&mut self, fill: &[u8], next: usize, extra: u64) -> usize
        requires { next < length fill.now }
        ensures place { result < length fill.now }
        ensures name { self.new.name ≡ self.old.name }
        ensures turn { result ≡ (crashed fill.now extra next self.old.stored).1 }
        ensures crashed { self.new
            ≡ record { name = self.old.name; stored = at_rest (crashed fill.now extra next self.old.stored).0 } }
        ensures left { IsCrashed self.old.stored self.new.stored }
    {
        let next = scramble(&mut self.bytes, self.least, &self.written, fill, next);
        let end = (self.least as u64)
            .saturating_add(extra)
            .min(self.bytes.len() as u64) as usize;
        self.bytes.truncate(end);
        self.len = end;
        self.least = end;
        self.there = true;
        self.written.clear();
        next
    }
}

// Adds a range, and what a write would add to the length.
fn grow(bytes: &mut Vec<u8>, written: &mut Vec<Range>, at: usize, from: &[u8]) -> Result<(), Memory>
    requires { at ≤ length bytes.old.items }
    ensures size { OnOk result (length bytes.new.items ≡ max (length bytes.old.items) (at + length from.now)) }
    ensures front { OnOk result (take (length bytes.old.items) bytes.new.items ≡ bytes.old.items) }
    ensures range { OnOk result (written.new.items ≡ written.old.items
        ++ record { from = at; to = at + length from.now } ∷ []) }
    ensures bytes_left { OnErr result (bytes.new.items ≡ bytes.old.items) }
    ensures ranges_left { OnErr result (written.new.items ≡ written.old.items) }
{
    let end = at + from.len();
    let over = from.len().min(bytes.len() - at);
    written.push(Range { from: at, to: end })?;
    if bytes.extend_from_slice(&from[over..]).is_err() {
        let _last = written.pop();
        return Err(Memory);
    }
    Ok(())
}

// The place after this one, taken round.
fn following(place: usize, len: usize) -> usize
    requires { place < len }
    ensures place { result < len }
    ensures next { result ≡ ports.following place len }
{
    if place + 1 < len { place + 1 } else { 0 }
}

// Whether a byte isn't determined: it stands past the least length, or was written.
fn is_free(place: usize, least: usize, written: &[Range]) -> bool
    ensures { result ≡ (nat_le least place || images.is_in place written.now) }
{
    place >= least || is_in(place, written)
}

// Puts bytes over those from a place on.
fn put_at(bytes: &mut Vec<u8>, at: usize, from: &[u8])
    requires { at + length from.now ≤ length bytes.old.items }
    ensures { bytes.new.items ≡ take at bytes.old.items ++ (from.now ++ drop (at + length from.now) bytes.old.items) }
{
    bytes[at..at + from.len()].copy_from_slice(from);
}

// Each byte from the least length on, and in a range that was written, becomes the next one of a filling.
fn scramble(bytes: &mut Vec<u8>, least: usize, written: &[Range], fill: &[u8], next: usize) -> usize
    requires { next < length fill.now }
    ensures place { result < length fill.now }
    ensures size { length bytes.new.items ≡ length bytes.old.items }
    ensures refilled { (bytes.new.items, result)
        ≡ refilled (record { least = least; greatest = length bytes.old.items; written = written.now })
        fill.now 0 next bytes.old.items }
    ensures stays { (place : ℕ) → place < least → images.is_in place written.now ≡ false
        → get_or bytes.new.items place 0 ≡ get_or bytes.old.items place 0 }
{
    let mut turn = next;
    for i in 0..bytes.len() {
        if is_free(i, least, written) {
            bytes[i] = fill[turn];
            turn = following(turn, fill.len());
        }
    }
    turn
}
