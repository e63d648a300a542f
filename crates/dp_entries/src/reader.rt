//! The entries of a source, pulled one at a time.

ghost use Rattle.std.specs.Prelude.{◌≡◌, ◌≢◌, ◌↔◌, ℕ, ◌+◌, ◌-◌, ◌^◌, ◌<◌, ◌≤◌, Err, true};
ghost use Rattle.std.specs.Prelude.{List, [], ◌∷◌, ◌++◌, length, take, Some, OnOk, OnErr};
ghost use Rattle.std.specs.Prelude.{IfOk, IfErr, IfSome, IfNone, None, IsOkAnd, OnSome};
ghost use Rattle.std.specs.declared.option.Option.{Option};
ghost use Rattle.std.specs.Io.KnownBytes.{Consumes, IsAtEnd};
ghost use Rattle.dp_io.specs.Faults.{Rose};
ghost use Rattle.dp_frame.specs.Frames.{HoldsNoFrame};
ghost use Rattle.dp_messages.specs.declared.message.Entry.{Entry as Item};
ghost use Rattle.dp_lines.specs.declared.run_end.RunEnd.TheVariants as run;
ghost use Rattle.dp_entries.specs.Input.{ComesTo};
ghost use Rattle.dp_entries.specs.Ends.{IsRefusal, refused_at};
ghost use Rattle.dp_entries.specs.Reader.{HasRead, HoldsWithin, SamePlace, SameSource};
ghost use Rattle.dp_entries.specs.Reader.{measure_of, room_of};
ghost use Rattle.dp_entries.specs.Reading.{FaultMatchesReadEnd, EndsReading, EndsWithInput};
ghost use Rattle.dp_entries.specs.Onward.{AreBytes, EndsOn, ReachesFew, ReadOn, HaltsOn};
ghost use Rattle.dp_entries.specs.Onward.{most_in_piece};
ghost use Rattle.dp_split.specs.Stream.{Stream};

use crate::{ReadEnd, Refusal, Standing};
use dp_io::{Failed, Source};
use dp_messages::Entry;
use dp_split::Splitter;
use std::alloc::{AllocError, Global};
use std::marker::{Model, PhantomData};

/// The entries of a source, pulled one at a time. It holds the bytes that were read and not yet
/// given as entries, and no entry.
#[derive(Drop)]
pub struct EntryReader<S: Standing> {
    splitter: Splitter,
    first: u64,
    limit: u64,
    count: u64,
    over: bool,
    ended: bool,
    standing: PhantomData<S>,
}

impl<S: Standing> Model for EntryReader<S> {
    ghost use Rattle.std.specs.Prelude.{◌+◌, ◌≤◌, length};
    ghost use Rattle.dp_entries.specs.Reader.{Reader};

    ghost Value = { Reader };

    ghost view = { λ r. record {
      first = r.first;
      limit = r.limit;
      stream = r.splitter;
      count = r.count;
      over = r.over;
      ended = r.ended;
    } };

    ghost invariant = { λ r. (r.first + r.splitter.at + length r.splitter.held ≤ r.limit)
        × (r.count ≤ r.splitter.at) };
}

impl<S: Standing> EntryReader<S> {
    /// A reader of a source of which `first` bytes were taken: there its first frame begins. Of the
    /// whole source `limit` bytes count.
    pub fn new(alloc: Global, first: u64, limit: u64) -> Self
        requires { first ≤ limit }
        ensures first { result.first ≡ first }
        ensures limit { result.limit ≡ limit }
        ensures none { HoldsNoFrame result.stream.held }
        ensures not_over { ¬ (result.over ≡ true) }
        ensures not_ended { ¬ (result.ended ≡ true) }
        ensures begun { (bytes head untaken : List ℕ)
            → bytes ≡ head ++ untaken → length head ≡ first
            → HasRead S.may_stand bytes (Some untaken) [] result }
    {
        let splitter = Splitter::new(alloc);
        EntryReader {
            splitter,
            first,
            limit,
            count: 0,
            over: false,
            ended: false,
            standing: PhantomData,
        }
    }

    /// A reader that begins with what a splitter holds. Of its stream `limit` bytes count, with
    /// those that were taken as frames before.
    pub fn resume(splitter: Splitter, limit: u64) -> Self
        requires { splitter.at + length splitter.held ≤ limit }
        ensures first { result.first ≡ 0 }
        ensures limit { result.limit ≡ limit }
        ensures stream { result.stream ≡ splitter }
        ensures not_over { ¬ (result.over ≡ true) }
        ensures not_ended { ¬ (result.ended ≡ true) }
        ensures begun { (source : Option (List ℕ))
            → ReadOn S.may_stand source source splitter [] result }
    {
        EntryReader {
            splitter,
            first: 0,
            limit,
            count: 0,
            over: false,
            ended: false,
            standing: PhantomData,
        }
    }

    /// The splitter, with what it holds.
    pub fn into_splitter(self) -> Splitter
        ensures { result ≡ self.stream }
    {
        self.splitter
    }

    /// Whether a whole frame is held: if one is, the next entry comes without a read.
    pub fn holds_frame(&self) -> bool
        ensures { (result ≡ true) ↔ (¬ HoldsNoFrame self.now.stream.held) }
    {
        self.splitter.peek_frame().is_some()
    }

    /// Gives the next entry; `None` if the input ends after a whole frame. It reads pieces of at
    /// most 4096 bytes, and only if no whole frame is held. After `None` and after an error it
    /// has ended: it gives `None` from then on, and reads nothing.
    ///
    /// # Errors
    ///
    /// `ReadFault` if the input failed, and `Truncated` if it ends inside a frame. `BadMessage` at
    /// the first frame that may not stand, `Long` if more bytes than count were taken, and `Memory`
    /// if memory ran out.
    #[inline(always)]
    pub fn next<I: Source>(
        &mut self,
        alloc: Global,
        input: &mut I,
    ) -> Result<Option<Entry>, ReadEnd<S::Cause>>
        // What was read goes on by the entry that is given.
        ensures given { IfOk result (λ next. IfSome next (λ entry.
            (bytes : List ℕ) (entries : List Item)
            → HasRead S.may_stand bytes (I.left input.old) entries self.old
            → HasRead S.may_stand bytes (I.left input.new) (entries ++ entry ∷ []) self.new)) }
        ensures further { IfOk result (λ next. IfSome next (λ _.
            self.old.stream.at < self.new.stream.at)) }
        ensures within { HoldsWithin self.new }
        ensures source { SameSource self.old self.new }

        // If there is none, the input came to its end, or reading it ended with this error.
        ensures at_end { ¬ (self.old.ended ≡ true) → IfOk result (λ next.
            IfNone next (IsAtEnd (I.left input.new))) }
        ensures done { ¬ (self.old.ended ≡ true) → IfOk result (λ next. IfNone next
            ((bytes : List ℕ) (entries : List Item)
            → HasRead S.may_stand bytes (I.left input.old) entries self.old
            → ComesTo S.may_stand self.old.first self.old.limit bytes entries run.Done)) }
        ensures ends { IfErr result (λ end. (bytes : List ℕ) (entries : List Item)
            → HasRead S.may_stand bytes (I.left input.old) entries self.old
            → EndsReading S.may_stand S.is_cause self.old.first self.old.limit bytes
            (I.left input.new) entries end) }
        ensures inside { IfErr result (EndsWithInput (I.left input.new)) }

        // These clauses say the same of what was read from a stream on.
        ensures goes_on { IfOk result (λ next. IfSome next (λ entry.
            (source : Option (List ℕ)) (start : Stream) (entries : List Item)
            → ReadOn S.may_stand source (I.left input.old) start entries self.old
            → ReadOn S.may_stand source (I.left input.new) start (entries ++ entry ∷ [])
            self.new)) }
        ensures goes_to_end { ¬ (self.old.ended ≡ true) → IfOk result (λ next. IfNone next
            ((source : Option (List ℕ)) (start : Stream) (entries : List Item)
            → ReadOn S.may_stand source (I.left input.old) start entries self.old
            → EndsOn S.may_stand self.old.limit source (I.left input.new) start entries)) }
        ensures stops { IfErr result (λ end.
            (source : Option (List ℕ)) (start : Stream) (entries : List Item)
            → ReadOn S.may_stand source (I.left input.old) start entries self.old
            → HaltsOn S.may_stand S.is_cause self.old.limit source (I.left input.new) start entries
            self.new.stream.held end) }
        ensures few { ReachesFew self.old.stream self.new.stream }

        // It has ended then, and stays so.
        ensures not_ended { IfOk result (λ next. OnSome next (¬ (self.new.ended ≡ true))) }
        ensures ended { OnErr result (self.new.ended ≡ true) }
        ensures fused { self.old.ended ≡ true → IsOkAnd result (λ next. (next ≡ None)
            × (self.new ≡ self.old) × (I.left input.new ≡ I.left input.old)) }

        // A fault is answered if the count of the input's faults rose, and else it stays.
        ensures kept { OnOk result (I.faults input.new ≡ I.faults input.old) }
        ensures fault { IfErr result
            (FaultMatchesReadEnd (I.faults input.old) (I.faults input.new)) }
        ensures later { I.faults input.old ≤ I.faults input.new }
    {
        if self.ended {
            return Ok(None);
        }
        match self.fill(input) {
            Ok(true) => {}
            Ok(false) => {
                self.ended = true;
                return Ok(None);
            }
            Err(end) => {
                self.ended = true;
                return Err(end);
            }
        }
        match self.take(alloc) {
            Ok(entry) => Ok(Some(entry)),
            Err(end) => {
                self.ended = true;
                Err(end)
            }
        }
    }

    /// Takes bytes that were read of the source already, the next ones. Those that count are held.
    /// After an error nothing has changed.
    pub fn push(&mut self, bytes: &[u8]) -> Result<(), AllocError>
        requires not_over { ¬ (self.old.over ≡ true) }
        requires none { HoldsNoFrame self.old.stream.held }
        ensures read { OnOk result ((input : List ℕ) (left rest : Option (List ℕ))
            (entries : List Item) → length bytes.now ≤ 4096 → Consumes left rest bytes.now
            → HasRead S.may_stand input left entries self.old
            → HasRead S.may_stand input rest entries self.new) }
        ensures goes_on { OnOk result ((source left rest : Option (List ℕ)) (start : Stream)
            (entries : List Item) → Consumes left rest bytes.now
            → ReadOn S.may_stand source left start entries self.old
            → ReadOn S.may_stand source rest start entries self.new) }
        ensures further { OnOk result (0 < length bytes.now
            → measure_of self.new < measure_of self.old) }
        ensures place { SamePlace self.old self.new }
        ensures within { HoldsWithin self.new }
        ensures bytes { AreBytes self.old.stream.held → AreBytes self.new.stream.held }
        ensures more { length self.new.stream.held
            ≤ length self.old.stream.held + length bytes.now }
        ensures err { OnErr result (self.new ≡ self.old) }
    {
        match self.feed(bytes) {
            Ok(()) => Ok(()),
            Err(AllocError) => Err(AllocError),
        }
    }

    /// Reads until a whole frame is held, and says whether one is; `false` if the input ends
    /// after a whole frame. It reads pieces of at most 4096 bytes, and only if none is held.
    ///
    /// # Errors
    ///
    /// `ReadFault` if the input failed, and `Truncated` if it ends inside a frame. `Long` if more
    /// bytes than count were taken, and `Memory` if memory ran out. It reads even if `next` has
    /// ended.
    #[inline(always)]
    pub fn fill<I: Source>(&mut self, input: &mut I) -> Result<bool, ReadEnd<S::Cause>>
        ensures read { OnOk result ((bytes : List ℕ) (entries : List Item)
            → HasRead S.may_stand bytes (I.left input.old) entries self.old
            → HasRead S.may_stand bytes (I.left input.new) entries self.new) }
        ensures held { IfOk result (λ more. more ≡ true
            → ¬ HoldsNoFrame self.new.stream.held) }

        // If a whole frame is held, nothing is read.
        ensures ready { ¬ HoldsNoFrame self.old.stream.held → IsOkAnd result (λ more. more ≡ true) }
        ensures idle { ¬ HoldsNoFrame self.old.stream.held
            → (self.new ≡ self.old) × (I.left input.new ≡ I.left input.old) }

        // If there is none, the input came to its end, or reading it ended with this error.
        ensures at_end { IfOk result (λ more. ¬ (more ≡ true) → IsAtEnd (I.left input.new)) }
        ensures done { IfOk result (λ more. ¬ (more ≡ true) → (bytes : List ℕ) (entries : List Item)
            → HasRead S.may_stand bytes (I.left input.old) entries self.old
            → ComesTo S.may_stand self.old.first self.old.limit bytes entries run.Done) }
        ensures ends { IfErr result (λ end. (bytes : List ℕ) (entries : List Item)
            → HasRead S.may_stand bytes (I.left input.old) entries self.old
            → EndsReading S.may_stand S.is_cause self.old.first self.old.limit bytes
            (I.left input.new) entries end) }
        ensures inside { IfErr result (EndsWithInput (I.left input.new)) }
        ensures within { HoldsWithin self.new }
        ensures place { SamePlace self.old self.new }

        // These clauses say the same of what was read from a stream on.
        ensures goes_on { OnOk result ((source : Option (List ℕ)) (start : Stream)
            (entries : List Item)
            → ReadOn S.may_stand source (I.left input.old) start entries self.old
            → ReadOn S.may_stand source (I.left input.new) start entries self.new) }
        ensures goes_to_end { IfOk result (λ more. ¬ (more ≡ true)
            → (source : Option (List ℕ)) (start : Stream) (entries : List Item)
            → ReadOn S.may_stand source (I.left input.old) start entries self.old
            → EndsOn S.may_stand self.old.limit source (I.left input.new) start entries) }
        ensures stops { IfErr result (λ end.
            (source : Option (List ℕ)) (start : Stream) (entries : List Item)
            → ReadOn S.may_stand source (I.left input.old) start entries self.old
            → HaltsOn S.may_stand S.is_cause self.old.limit source (I.left input.new) start entries
            self.new.stream.held end) }
        ensures few { ReachesFew self.old.stream self.new.stream }

        // A fault is answered if the count of the input's faults rose, and else it stays.
        ensures kept { OnOk result (I.faults input.new ≡ I.faults input.old) }
        ensures fault { IfErr result
            (FaultMatchesReadEnd (I.faults input.old) (I.faults input.new)) }
        ensures later { I.faults input.old ≤ I.faults input.new }
    {
        'pieces: loop {
            if self.splitter.peek_frame().is_some() {
                return Ok(true);
            }
            if !self.read_piece(input)? {
                self.check_end()?;
                return Ok(false);
            }
        }
    }

    /// Gives the entry of the first frame that is held, even if `next` has ended.
    ///
    /// # Errors
    ///
    /// `BadMessage` if the frame may not stand, and `Memory` if memory ran out. Nothing has
    /// changed then.
    #[inline(always)]
    pub fn take(&mut self, alloc: Global) -> Result<Entry, ReadEnd<S::Cause>>
        requires held { ¬ HoldsNoFrame self.old.stream.held }
        ensures given { IfOk result (λ entry.
            (bytes : List ℕ) (left : Option (List ℕ)) (entries : List Item)
            → HasRead S.may_stand bytes left entries self.old
            → HasRead S.may_stand bytes left (entries ++ entry ∷ []) self.new) }
        ensures further { OnOk result (self.old.stream.at < self.new.stream.at) }
        ensures source { SameSource self.old self.new }
        ensures ended { self.new.ended ≡ self.old.ended }
        ensures within { HoldsWithin self.new }
        ensures err { OnErr result (self.new ≡ self.old) }
        ensures ends { IfErr result (λ end.
            (bytes : List ℕ) (left : Option (List ℕ)) (entries : List Item)
            → HasRead S.may_stand bytes left entries self.old
            → EndsReading S.may_stand S.is_cause self.old.first self.old.limit bytes left entries
            end) }
        ensures refused { IfErr result IsRefusal }
        ensures goes_on { IfOk result (λ entry.
            (source left : Option (List ℕ)) (start : Stream) (entries : List Item)
            → ReadOn S.may_stand source left start entries self.old
            → ReadOn S.may_stand source left start (entries ++ entry ∷ []) self.new) }
        ensures stops { IfErr result (λ end.
            (source left : Option (List ℕ)) (start : Stream) (entries : List Item)
            → ReadOn S.may_stand source left start entries self.old
            → HaltsOn S.may_stand S.is_cause self.old.limit source left start entries
            self.new.stream.held end) }
        ensures count { self.new.stream.at + length self.new.stream.held
            ≡ self.old.stream.at + length self.old.stream.held }
    {
        S::one_standing();
        let judged = match self.splitter.peek_frame() {
            Some(frame) => S::judge(alloc, self.count, &frame),
            None => unreachable!(),
        };
        match judged {
            Ok(entry) => {
                self.splitter.drop_frame();
                self.count += 1;
                Ok(entry)
            }
            Err(why) => Err(end_of_refusal(self.first + self.splitter.at(), why)),
        }
    }

    /// Reads a piece, and takes it. Whether there was any byte.
    #[inline(never)]
    fn read_piece<I: Source>(&mut self, input: &mut I) -> Result<bool, ReadEnd<S::Cause>>
        requires none { HoldsNoFrame self.old.stream.held }
        requires within { HoldsWithin self.old }
        ensures read { OnOk result ((bytes : List ℕ) (entries : List Item)
            → HasRead S.may_stand bytes (I.left input.old) entries self.old
            → HasRead S.may_stand bytes (I.left input.new) entries self.new) }
        ensures further { IfOk result (λ more. more ≡ true
            → measure_of self.new < measure_of self.old) }
        ensures same { IfOk result (λ more. ¬ (more ≡ true) → self.new ≡ self.old) }
        ensures at_end { IfOk result (λ more. ¬ (more ≡ true) → IsAtEnd (I.left input.new)) }
        ensures not_over { OnOk result (¬ (self.old.over ≡ true)) }
        ensures within { HoldsWithin self.new }
        ensures place { SamePlace self.old self.new }
        ensures ends { IfErr result (λ end. (bytes : List ℕ) (entries : List Item)
            → HasRead S.may_stand bytes (I.left input.old) entries self.old
            → EndsReading S.may_stand S.is_cause self.old.first self.old.limit bytes
            (I.left input.new) entries end) }
        ensures at_input { IfErr result (EndsWithInput (I.left input.new)) }
        ensures goes_on { OnOk result ((source : Option (List ℕ)) (start : Stream)
            (entries : List Item)
            → ReadOn S.may_stand source (I.left input.old) start entries self.old
            → ReadOn S.may_stand source (I.left input.new) start entries self.new) }
        ensures stops { IfErr result (λ end.
            (source : Option (List ℕ)) (start : Stream) (entries : List Item)
            → ReadOn S.may_stand source (I.left input.old) start entries self.old
            → HaltsOn S.may_stand S.is_cause self.old.limit source (I.left input.new) start entries
            self.new.stream.held end) }
        ensures bytes { AreBytes self.old.stream.held → AreBytes self.new.stream.held }
        ensures few { AreBytes self.old.stream.held
            → self.new.stream.at + length self.new.stream.held
            ≤ self.old.stream.at + most_in_piece }
        ensures kept { OnOk result (I.faults input.new ≡ I.faults input.old) }
        ensures fault { IfErr result
            (FaultMatchesReadEnd (I.faults input.old) (I.faults input.new)) }
        ensures later { I.faults input.old ≤ I.faults input.new }
    {
        if self.over {
            return Err(ReadEnd::Long);
        }
        let mut buffer = [0; 4096];
        let count = match input.read(&mut buffer) {
            Ok(count) => count,
            Err(Failed) => return Err(ReadEnd::ReadFault),
        };
        if count == 0 {
            return Ok(false);
        }
        match self.push(&buffer[..count]) {
            Ok(()) => Ok(true),
            Err(AllocError) => Err(ReadEnd::Memory),
        }
    }

    /// Holds the bytes that count of those that are next.
    fn feed(&mut self, bytes: &[u8]) -> Result<(), AllocError>
        ensures held { OnOk result (self.new.stream.held
            ≡ self.old.stream.held ++ take (room_of self.old) bytes.now) }
        ensures over { OnOk result ((self.new.over ≡ true)
            ↔ (room_of self.old < length bytes.now)) }
        ensures small { AreBytes bytes.now }
        ensures place { SamePlace self.old self.new }
        ensures count { self.new.count ≡ self.old.count }
        ensures before { HoldsWithin self.old }
        ensures within { HoldsWithin self.new }
        ensures err { OnErr result (self.new ≡ self.old) }
    {
        let counted = bytes.len().min(self.room());
        self.splitter.feed(&bytes[..counted])?;
        self.over = counted < bytes.len();
        Ok(())
    }

    /// How many bytes more count.
    fn room(&self) -> usize
        ensures { result ≡ room_of self.now }
    {
        (self.limit - self.first - self.splitter.at()) as usize - self.splitter.rest_len()
    }

    /// If nothing is left of the input and no whole frame is held, no byte is held.
    fn check_end(&self) -> Result<(), ReadEnd<S::Cause>>
        requires none { HoldsNoFrame self.now.stream.held }
        requires not_over { ¬ (self.now.over ≡ true) }
        requires within { HoldsWithin self.now }
        requires fits { self.now.limit < 2 ^ 64 }
        ensures done { OnOk result ((bytes : List ℕ) (left : Option (List ℕ))
            (entries : List Item) → IsAtEnd left
            → HasRead S.may_stand bytes left entries self.now
            → ComesTo S.may_stand self.now.first self.now.limit bytes entries run.Done) }
        ensures ends { IfErr result (λ end. (bytes : List ℕ) (left : Option (List ℕ))
            (entries : List Item) → IsAtEnd left
            → HasRead S.may_stand bytes left entries self.now
            → EndsReading S.may_stand S.is_cause self.now.first self.now.limit bytes left entries
            end) }
        ensures inside { IfErr result (λ end. (left : Option (List ℕ)) → IsAtEnd left
            → EndsWithInput left end × ((count : ℕ) → FaultMatchesReadEnd count count end)) }
        ensures goes_to_end { OnOk result ((source left : Option (List ℕ)) (start : Stream)
            (entries : List Item) → ReadOn S.may_stand source left start entries self.now
            → EndsOn S.may_stand self.now.limit source left start entries) }
        ensures stops { IfErr result (λ end.
            (source left : Option (List ℕ)) (start : Stream) (entries : List Item)
            → ReadOn S.may_stand source left start entries self.now
            → HaltsOn S.may_stand S.is_cause self.now.limit source left start entries
            self.now.stream.held end) }
    {
        if self.splitter.rest_len() == 0 {
            Ok(())
        } else {
            Err(ReadEnd::Truncated(self.first + self.splitter.at()))
        }
    }
}

/// How reading ends if the frame at this byte gives no entry.
fn end_of_refusal<C>(at: u64, why: Refusal<C>) -> ReadEnd<C>
    ensures { result ≡ refused_at at why }
{
    match why {
        Refusal::Cause(cause) => ReadEnd::BadMessage(cause, at),
        Refusal::Memory => ReadEnd::Memory,
    }
}
