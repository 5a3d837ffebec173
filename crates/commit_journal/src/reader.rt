//! Reads a journal's bytes after the header, from left to right: what it has found, and how many bytes it needs next.
//!
//! It sees no device. Bytes are handed to it as they come, each time at least as many as it wants. If the file has
//! fewer, it is no journal. Each element goes to a sink when it is complete, so the reader keeps no bytes of its own.
ghost use Rattle.std.specs.Prelude.{◌≡◌, ◌+◌, ◌-◌, ◌*◌, ◌<◌, ◌≤◌, ◌^◌, ◌++◌, ◌∷◌, ◌↔◌, ℕ, List, [], length, take, drop, true, None, IfSome, IfOk, IfErr, OnOk};
ghost use Rattle.byteorder.specs.Endian.{little_number};
ghost use Rattle.refusals.specs.Answers.{RefusedFor};
ghost use Rattle.refusals.specs.declared.refusal.Refusal.TheVariants.{JournalDamaged};
ghost use Rattle.crash_model.specs.Promises.{nothing};
ghost use Rattle.commit_journal.specs.Encoding.{decoded};
ghost use Rattle.commit_journal.specs.Store.{encodings_after};
ghost use Rattle.commit_journal.specs.GhostLog.{logged_changes};

use crate::extent::Extent;
use crate::ghost_log::GhostLog;
use crate::layout::{
    COUNT_AT, ELEMENT_ROOM, FIRST_NUMBER_AT, HEAD_BYTES, LEAST_ELEMENT_BYTES, LENGTH_BYTES,
    MOST_BODY_BYTES, OPEN_GATE,
};
use crate::sink::ElementSink;
use byteorder::{ByteOrder, LittleEndian};
use change_codec::EncodedChange;
use refusals::Refusal;
use refusals::limits::GREATEST_NUMBER;
use std::alloc::Global;

/// The limit of a journal's room: each byte of it is in memory once it is read.
const MOST_ROOM: u64 = 1 << 63;

/// A body of which a part is read.
#[derive(Clone, Copy)]
pub(crate) struct PartialBody {
    /// The number of its first element.
    pub first: u64,
    /// Its size in bytes, with its head.
    pub size: u64,
    /// The bytes of it that are still to be read.
    left: u64,
    /// The elements of it that are still to be read.
    count: u64,
    /// How many elements were read before it.
    pub start: u64,
}

/// What comes next in the file.
#[derive(Clone, Copy)]
pub(crate) enum NextField {
    /// A gate.
    Gate,
    /// The head of a body, after an open gate.
    Head,
    /// The length of a body's next element.
    Size(PartialBody),
    /// An element and its size in bytes, its length included.
    Encoding(PartialBody, usize),
    /// Nothing: the last gate wasn't open, and what is after it is free.
    Done,
}

/// What was read so far.
#[derive(Drop)]
pub(crate) struct Reader {
    alloc: Global,
    hives: u8,
    /// What the bodies that were read whole decode to.
    pub on_device: Extent,
    /// The elements that were read, in their order. Contracts alone know them.
    read: GhostLog,
    /// The number of the last one, or the number before the first one's.
    last: u64,
    next: NextField,
    ghost few: { hives ≤ 256 },
    ghost numbers: { length (logged_changes read) ≤ last },
}

impl Reader {
    ghost use Rattle.commit_journal.specs.Journals.{content_of};
    ghost use Rattle.commit_journal.specs.Reading.{AtGate, in_partial_body, reading_at, encodings_for, IsReading, BodyMayFollow, ElementsAreSound, PartialIsSound, sound_at, ReaderIsSound, NumbersAgree, wanted_by, waits, read_by, numbers_agree_at, IsLastOfPartial, numbered_to, taken_by, TakesOn, FromBytes, FromReader};
    ghost use Rattle.commit_journal.specs.Scans.{ReadingFails};

    /// Nothing was read: the first gate comes next.
    pub fn new(alloc: Global, hives: u8) -> Reader
        ensures keeps { ReaderIsSound result }
        ensures tied { NumbersAgree result }
        ensures none { taken_by result ≡ [] }
        ensures hives { result.hives ≡ hives }
        ensures begins { (header file rest : List ℕ) →
            AtGate (encodings_after header hives) file nothing 64 rest →
            IsReading header file result rest }
    {
        Reader {
            alloc,
            hives,
            on_device: Extent::nothing(),
            read: GhostLog::Nothing,
            last: 0,
            next: NextField::Gate,
        }
    }

    /// All that counts is read.
    pub fn is_done(&self) -> bool
        ensures { (result ≡ true) ↔ (self.now.next ≡ NextField.Done) }
    {
        matches!(self.next, NextField::Done)
    }

    /// How many bytes it wants at least. If the file has fewer, it decodes to nothing.
    pub fn wants(&self) -> usize
        requires keeps { ReaderIsSound self.now }
        ensures wants { result ≡ wanted_by self.now.next }
        ensures short { (header file rest : List ℕ) → IsReading header file self.now rest →
            length rest < result → decoded (encodings_for header self.now) file ≡ None }
    {
        match self.next {
            NextField::Gate => 1,
            NextField::Head => HEAD_BYTES as usize,
            NextField::Size(_) => LENGTH_BYTES,
            NextField::Encoding(_, len) => len,
            NextField::Done => 0,
        }
    }

    /// Takes the next bytes, of which the file has `left` from here on: answers how many were taken. The elements that
    /// are whole in them go to the sink.
    ///
    /// Refused with `JournalDamaged` only if the file decodes to nothing, with `NoMemory`, and as the sink refuses an
    /// element.
    pub fn take<S: ElementSink>(
        &mut self,
        sink: &mut S,
        bytes: &[u8],
        left: u64,
    ) -> Result<usize, Refusal>
        requires continues { ¬ (self.old.next ≡ NextField.Done) }
        requires there { wanted_by self.old.next ≤ length bytes.now }
        requires keeps { ReaderIsSound self.old }
        requires tied { NumbersAgree self.old }
        ensures keeps { OnOk result (ReaderIsSound self.new) }
        ensures tied { OnOk result (NumbersAgree self.new) }
        ensures hives { self.new.hives ≡ self.old.hives }
        ensures within { IfOk result (λ n. n ≤ length bytes.now) }
        ensures falls { IfOk result (λ n. waits self.new.next < waits self.old.next + 2 * n) }
        ensures reads { IfOk result (λ n. (header file behind : List ℕ) → left ≡ length bytes.now + length behind →
            IsReading header file self.old (bytes.now ++ behind) →
            IsReading header file self.new (drop n bytes.now ++ behind)) }
        ensures takes { TakesOn S.Took sink.old sink.new self.old self.new }
        ensures refused { IfErr result (ReadingFails (S.Denies sink.new)
            (FromReader self.old bytes.now left) (taken_by self.new)) }
    {
        match self.next {
            NextField::Gate => {
                self.gate(bytes);
                Ok(1)
            }
            NextField::Head => match self.head(bytes, left) {
                Ok(()) => Ok(HEAD_BYTES as usize),
                Err(why) => Err(why),
            },
            NextField::Size(partial_body) => self.size(sink, partial_body, bytes),
            NextField::Encoding(partial_body, len) => {
                self.sized_element(sink, partial_body, len, bytes)
            }
            NextField::Done => Ok(0),
        }
    }

    /// A gate: after an open one a body comes.
    fn gate(&mut self, bytes: &[u8])
        requires there { 1 ≤ length bytes.now }
        requires keeps { sound_at self.old.hives self.old.on_device (read_by self.old) NextField.Gate }
        requires tied { numbers_agree_at self.old.last self.old.on_device (read_by self.old) NextField.Gate }
        ensures keeps { ReaderIsSound self.new }
        ensures tied { NumbersAgree self.new }
        ensures hives { self.new.hives ≡ self.old.hives }
        ensures same { taken_by self.new ≡ taken_by self.old }
        ensures falls { waits self.new.next < 2 }
        ensures reads { (header file behind : List ℕ) →
            reading_at (encodings_for header self.old) file self.old.on_device (read_by self.old) NextField.Gate
            (bytes.now ++ behind) →
            IsReading header file self.new (drop 1 bytes.now ++ behind) }
    {
        self.next = if bytes[0] == OPEN_GATE {
            NextField::Head
        } else {
            NextField::Done
        };
    }

    /// The head of a body: its length, the number of its first element, and how many elements it has.
    fn head(&mut self, bytes: &[u8], left: u64) -> Result<(), Refusal>
        requires there { 16 ≤ length bytes.now }
        requires keeps { sound_at self.old.hives self.old.on_device (read_by self.old) NextField.Head }
        requires tied { numbers_agree_at self.old.last self.old.on_device (read_by self.old) NextField.Head }
        ensures keeps { OnOk result (ReaderIsSound self.new) }
        ensures tied { OnOk result (NumbersAgree self.new) }
        ensures hives { self.new.hives ≡ self.old.hives }
        ensures same { taken_by self.new ≡ taken_by self.old }
        ensures falls { OnOk result (waits self.new.next < 32) }
        ensures reads { OnOk result ((header file behind : List ℕ) → left ≡ length bytes.now + length behind →
            reading_at (encodings_for header self.old) file self.old.on_device (read_by self.old) NextField.Head
            (bytes.now ++ behind) →
            IsReading header file self.new (drop 16 bytes.now ++ behind)) }
        ensures refused { IfErr result (RefusedFor JournalDamaged ((header file behind : List ℕ) →
            left ≡ length bytes.now + length behind →
            reading_at (encodings_for header self.old) file self.old.on_device (read_by self.old) NextField.Head
            (bytes.now ++ behind) →
            decoded (encodings_for header self.old) file ≡ None)) }
    {
        let size = u64::from(LittleEndian::read_u32(bytes));
        let first = LittleEndian::read_u64(&bytes[FIRST_NUMBER_AT..]);
        let count = u64::from(LittleEndian::read_u32(&bytes[COUNT_AT..]));
        if size < HEAD_BYTES || size > MOST_BODY_BYTES || size > left {
            return Err(Refusal::JournalDamaged);
        }
        if !self.may_follow(first, count) {
            return Err(Refusal::JournalDamaged);
        }
        let start = self.on_device.count();
        // if elements were read, this is their last number already
        self.last = first - 1;
        self.partial_body(PartialBody {
            first,
            size,
            left: size - HEAD_BYTES,
            count,
            start,
        })
    }

    /// Whether a body with `count` elements from the number `first` on may follow the durable content.
    fn may_follow(&self, first: u64, count: u64) -> bool
        ensures { (result ≡ true) ↔ BodyMayFollow GREATEST_NUMBER (content_of self.now.on_device) first count }
    {
        let last = self.on_device.last;
        first > 0
            && (last == 0 || first - 1 == last)
            && count > 0
            && first <= GREATEST_NUMBER
            && count - 1 <= GREATEST_NUMBER - first
    }

    /// What comes next in a body: an element, or the gate after it.
    fn partial_body(&mut self, partial_body: PartialBody) -> Result<(), Refusal>
        requires elements { ElementsAreSound self.old.hives self.old.on_device
            (take partial_body.start (read_by self.old)) (read_by self.old) }
        requires partial_body { PartialIsSound self.old.on_device (read_by self.old) partial_body }
        requires tied { IsLastOfPartial self.old.last (read_by self.old) partial_body }
        ensures keeps { OnOk result (ReaderIsSound self.new) }
        ensures tied { OnOk result (NumbersAgree self.new) }
        ensures hives { self.new.hives ≡ self.old.hives }
        ensures same { taken_by self.new ≡ taken_by self.old }
        ensures falls { OnOk result (waits self.new.next < 2) }
        ensures reads { OnOk result ((header file rest : List ℕ) →
            in_partial_body (encodings_for header self.old) file self.old.on_device (read_by self.old) partial_body rest →
            IsReading header file self.new rest) }
        ensures refused { IfErr result (RefusedFor JournalDamaged ((header file rest : List ℕ) →
            in_partial_body (encodings_for header self.old) file self.old.on_device (read_by self.old) partial_body rest →
            decoded (encodings_for header self.old) file ≡ None)) }
    {
        if partial_body.count == 0 {
            return self.end(partial_body);
        }
        if partial_body.left < LEAST_ELEMENT_BYTES {
            return Err(Refusal::JournalDamaged);
        }
        self.next = NextField::Size(partial_body);
        Ok(())
    }

    /// The end of a body, all of whose elements were read: its elements are added.
    ///
    /// A journal whose elements have more than 2^63 bytes doesn't fit memory, so it is refused with `NoMemory`.
    fn end(&mut self, partial_body: PartialBody) -> Result<(), Refusal>
        requires none { partial_body.count ≡ 0 }
        requires elements { ElementsAreSound self.old.hives self.old.on_device
            (take partial_body.start (read_by self.old)) (read_by self.old) }
        requires partial_body { PartialIsSound self.old.on_device (read_by self.old) partial_body }
        requires tied { IsLastOfPartial self.old.last (read_by self.old) partial_body }
        ensures keeps { OnOk result (ReaderIsSound self.new) }
        ensures tied { OnOk result (NumbersAgree self.new) }
        ensures hives { self.new.hives ≡ self.old.hives }
        ensures same { taken_by self.new ≡ taken_by self.old }
        ensures falls { OnOk result (waits self.new.next < 2) }
        ensures reads { OnOk result ((header file rest : List ℕ) →
            in_partial_body (encodings_for header self.old) file self.old.on_device (read_by self.old) partial_body rest →
            IsReading header file self.new rest) }
        ensures refused { IfErr result (RefusedFor JournalDamaged ((header file rest : List ℕ) →
            in_partial_body (encodings_for header self.old) file self.old.on_device (read_by self.old) partial_body rest →
            decoded (encodings_for header self.old) file ≡ None)) }
    {
        if partial_body.left > 0 {
            return Err(Refusal::JournalDamaged);
        }
        let count = self.last + 1 - partial_body.first;
        let room = ELEMENT_ROOM * count + (partial_body.size - HEAD_BYTES);
        if self.on_device.used >= MOST_ROOM || room >= MOST_ROOM - self.on_device.used {
            return Err(Refusal::NoMemory);
        }
        self.on_device = self
            .on_device
            .with_body(partial_body, count, self.read.same());
        self.next = NextField::Gate;
        Ok(())
    }

    /// The length of an element, which is read again with the element. If the whole element is in memory, it is taken.
    fn size<S: ElementSink>(
        &mut self,
        sink: &mut S,
        partial_body: PartialBody,
        bytes: &[u8],
    ) -> Result<usize, Refusal>
        requires there { 4 ≤ length bytes.now }
        requires keeps { sound_at self.old.hives self.old.on_device (read_by self.old) (NextField.Size partial_body) }
        requires tied { numbers_agree_at self.old.last self.old.on_device (read_by self.old) (NextField.Size partial_body) }
        ensures keeps { OnOk result (ReaderIsSound self.new) }
        ensures tied { OnOk result (NumbersAgree self.new) }
        ensures hives { self.new.hives ≡ self.old.hives }
        ensures within { IfOk result (λ n. n ≤ length bytes.now) }
        ensures falls { IfOk result (λ n. waits self.new.next < 1 + 2 * n) }
        ensures reads { IfOk result (λ n. (header file behind : List ℕ) →
            reading_at (encodings_for header self.old) file self.old.on_device (read_by self.old)
            (NextField.Size partial_body) (bytes.now ++ behind) →
            IsReading header file self.new (drop n bytes.now ++ behind)) }
        ensures takes { TakesOn S.Took sink.old sink.new self.old self.new }
        ensures refused { IfErr result (ReadingFails (S.Denies sink.new)
            (FromBytes self.old (NextField.Size partial_body) bytes.now) (taken_by self.new)) }
    {
        let len = u64::from(LittleEndian::read_u32(bytes));
        if len < LEAST_ELEMENT_BYTES || len > partial_body.left {
            return Err(Refusal::JournalDamaged);
        }
        let len = len as usize;
        if len > bytes.len() {
            self.next = NextField::Encoding(partial_body, len);
            return Ok(0);
        }
        self.encodings(sink, partial_body, len, bytes)
    }

    /// An element whose length was read before the element was in memory. The length is read again with it.
    fn sized_element<S: ElementSink>(
        &mut self,
        sink: &mut S,
        partial_body: PartialBody,
        len: usize,
        bytes: &[u8],
    ) -> Result<usize, Refusal>
        requires there { len ≤ length bytes.now }
        requires keeps { sound_at self.old.hives self.old.on_device (read_by self.old)
            (NextField.Encoding partial_body len) }
        requires tied { numbers_agree_at self.old.last self.old.on_device (read_by self.old)
            (NextField.Encoding partial_body len) }
        ensures keeps { OnOk result (ReaderIsSound self.new) }
        ensures tied { OnOk result (NumbersAgree self.new) }
        ensures hives { self.new.hives ≡ self.old.hives }
        ensures within { IfOk result (λ n. n ≤ length bytes.now) }
        ensures falls { IfOk result (λ n. waits self.new.next < 2 * n) }
        ensures reads { IfOk result (λ n. (header file behind : List ℕ) →
            reading_at (encodings_for header self.old) file self.old.on_device (read_by self.old)
            (NextField.Encoding partial_body len) (bytes.now ++ behind) →
            IsReading header file self.new (drop n bytes.now ++ behind)) }
        ensures takes { TakesOn S.Took sink.old sink.new self.old self.new }
        ensures refused { IfErr result (ReadingFails (S.Denies sink.new)
            (FromBytes self.old (NextField.Encoding partial_body len) bytes.now) (taken_by self.new)) }
    {
        if LittleEndian::read_u32(bytes) as usize != len {
            return Err(Refusal::JournalDamaged);
        }
        self.encodings(sink, partial_body, len, bytes)
    }

    /// An element, and those after it that are whole in memory: answers how many bytes they have.
    fn encodings<S: ElementSink>(
        &mut self,
        sink: &mut S,
        partial_body: PartialBody,
        len: usize,
        bytes: &[u8],
    ) -> Result<usize, Refusal>
        requires there { len ≤ length bytes.now }
        requires len { little_number 4 bytes.now ≡ len }
        requires keeps { sound_at self.old.hives self.old.on_device (read_by self.old)
            (NextField.Encoding partial_body len) }
        requires tied { IsLastOfPartial self.old.last (read_by self.old) partial_body }
        ensures keeps { OnOk result (ReaderIsSound self.new) }
        ensures tied { OnOk result (NumbersAgree self.new) }
        ensures hives { self.new.hives ≡ self.old.hives }
        ensures within { IfOk result (λ n. n ≤ length bytes.now) }
        ensures falls { IfOk result (λ n. waits self.new.next < 2 * n) }
        ensures reads { IfOk result (λ n. (header file behind : List ℕ) →
            in_partial_body (encodings_for header self.old) file self.old.on_device (read_by self.old) partial_body
            (bytes.now ++ behind) →
            IsReading header file self.new (drop n bytes.now ++ behind)) }
        ensures takes { TakesOn S.Took sink.old sink.new self.old self.new }
        ensures refused { IfErr result (ReadingFails (S.Denies sink.new)
            (FromBytes self.old (NextField.Size partial_body) bytes.now) (taken_by self.new)) }
    {
        let mut partial_body = partial_body;
        self.encoding(sink, &mut partial_body, len, bytes)?;
        let mut taken = len;
        'elements: while let Some(more) = partial_body.whole(&bytes[taken..]) {
            match self.encoding(sink, &mut partial_body, more, &bytes[taken..]) {
                Ok(()) => taken += more,
                Err(why) => return Err(why),
            }
        }
        match self.partial_body(partial_body) {
            Ok(()) => Ok(taken),
            Err(why) => Err(why),
        }
    }

    /// An element, which goes to the sink: one less is to be read of the body.
    #[inline(always)]
    fn encoding<S: ElementSink>(
        &mut self,
        sink: &mut S,
        partial_body: &mut PartialBody,
        len: usize,
        bytes: &[u8],
    ) -> Result<(), Refusal>
        requires there { len ≤ length bytes.now }
        requires len { little_number 4 bytes.now ≡ len }
        requires keeps { sound_at self.old.hives self.old.on_device (read_by self.old)
            (NextField.Encoding partial_body.old len) }
        requires tied { IsLastOfPartial self.old.last (read_by self.old) partial_body.old }
        ensures elements { OnOk result (ElementsAreSound self.new.hives self.new.on_device
            (take partial_body.new.start (read_by self.new)) (read_by self.new)) }
        ensures partial_body { OnOk result (PartialIsSound self.new.on_device (read_by self.new) partial_body.new) }
        ensures tied { OnOk result (IsLastOfPartial self.new.last (read_by self.new) partial_body.new) }
        ensures hives { self.new.hives ≡ self.old.hives }
        ensures reads { OnOk result ((header file behind : List ℕ) →
            in_partial_body (encodings_for header self.old) file self.old.on_device (read_by self.old) partial_body.old
            (bytes.now ++ behind) →
            in_partial_body (encodings_for header self.new) file self.new.on_device (read_by self.new) partial_body.new
            (drop len bytes.now ++ behind)) }
        ensures takes { TakesOn S.Took sink.old sink.new self.old self.new }
        ensures refused { IfErr result (ReadingFails (S.Denies sink.new)
            (FromBytes self.old (NextField.Size partial_body.old) bytes.now) (taken_by self.new)) }
    {
        let element = match EncodedChange::take(self.alloc, self.hives, bytes) {
            Ok((element, _)) => element,
            Err(why) => return Err(why),
        };
        let number = self.last + 1;
        let read = self.read.with(&element);
        match sink.take(number, element) {
            Ok(()) => {}
            Err(why) => return Err(why),
        }
        self.read = read;
        self.last = number;
        partial_body.left -= len as u64;
        partial_body.count -= 1;
        Ok(())
    }
}

impl PartialBody {
    ghost use Rattle.commit_journal.specs.Reading.{IsNext};

    /// The length of its next element, if that is whole in memory.
    fn whole(&self, bytes: &[u8]) -> Option<usize>
        ensures { IfSome result (λ len. IsNext self.now len × ((len ≤ length bytes.now) ×
            (little_number 4 bytes.now ≡ len))) }
    {
        if self.count == 0 || bytes.len() < LENGTH_BYTES {
            return None;
        }
        let len = u64::from(LittleEndian::read_u32(bytes));
        if len >= LEAST_ELEMENT_BYTES && len <= self.left && len <= bytes.len() as u64 {
            Some(len as usize)
        } else {
            None
        }
    }
}
