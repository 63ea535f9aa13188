//! Sums over bytes as they come.
ghost use Rattle.std.specs.Prelude.{◌≡◌, ◌+◌, ◌-◌, ◌++◌, ◌≤◌, ◌<◌, [], ℕ, List, true, false, length, take, Ok, IfOk, IfErr, OnOk, OnErr};
ghost use Rattle.std.specs.List.{fold};
ghost use Rattle.route.specs.Routing.{with_byte};
ghost use Rattle.job_text.specs.Ends.{may_cut};
ghost use Rattle.job_text.specs.Lines.{Record, records_of};
ghost use Rattle.source_lines.specs.Feeds.{FeedStands};
ghost use Rattle.job_ending.specs.Endings.{IsPrintable};
ghost use Rattle.job_ending.specs.Outcome.{Outcome};
ghost use Rattle.job_ending.specs.Runs.{IsBefore, ending_of_halt};
ghost use Rattle.job_ending.specs.declared.ending.Ending.TheVariants.{Done};
ghost use Rattle.job_judgement.specs.Judgement.{judgement};
ghost use Rattle.job_judgement.specs.Views.{accepted_view};
ghost use Rattle.job_run.specs.Loads.{sums_script};
ghost use Rattle.job_run.specs.Outcome.{behind, summed, sums_answer};
ghost use Rattle.job_judgement.specs.Halts.{IsHalt};
ghost use Rattle.job_run.specs.Sums.{AreSums, IsRest, TakesAs, sums_of};
ghost use Rattle.job_run.specs.declared.running_sums.Taking.TheVariants as Taking;

use crate::kept::kept_by;
use crate::summaries::{line_count, quiet_len, summary, without_last};
use ct_io::GrowingSink;
use ct_value::{Bytes, Memory};
use job_batch::batch_over;
use job_ending::{Halt, LimitName};
use job_judgement::{Accepted, judged};
use job_text::may_cut;
use source_lines::{FeedFold, TakeFault};
use std::alloc::Global;
use std::mem;

// The script that sums what a load prints.
const SUMS_SCRIPT: &str =
    "CREATE TABLE out_t (word STRING PRIMARY KEY NOT ENFORCED, n BIGINT, s INT) WITH ('changelog' = 'upsert'); CREATE TABLE sums (words BIGINT, total BIGINT) WITH ('changelog' = 'retract'); INSERT INTO sums SELECT COUNT(*), COALESCE(SUM(n), 0) FROM out_t;";

// So many bytes at least are taken together.
const ROOM: usize = 65536;

// So many last bytes at least are kept back: a quiet line has fewer.
const TAIL: usize = 32;

// The most bytes that are summed: those of the largest change file.
const LIMIT: u64 = 67108864;

/// The lines that are taken, for the script that sums; or how their sums end.
#[derive(Drop)]
pub(crate) enum Taking {
    Going(Accepted, FeedFold),
    Halted(Halt),
}

/// Sums over bytes of which some are gone. The others are kept in two parts: behind the first the next lines begin.
#[derive(Drop)]
pub(crate) struct Sums {
    pub alloc: Global,
    pub taking: Taking,
    // the bytes that are gone, and the lines that end in them
    pub count: u64,
    pub ends: u64,
    // of all bytes
    pub hash: u64,
    pub block: Bytes,
    pub held: Bytes,
}

impl Sums {
    /// Nothing has come.
    pub(crate) fn new(alloc: Global) -> Sums
        ensures { AreSums result [] }
    {
        Sums {
            alloc,
            taking: begun(alloc),
            count: 0,
            ends: 0,
            hash: 0,
            block: Bytes::new(alloc),
            held: Bytes::new(alloc),
        }
    }

    /// More bytes come.
    pub(crate) fn push(&mut self, piece: &[u8]) -> Result<(), Memory>
        requires { (bytes : List ℕ) × AreSums self.old bytes }
        ensures ok { OnOk result ((bytes : List ℕ) → AreSums self.old bytes → AreSums self.new (bytes ++ piece.now)) }
        ensures err { OnErr result ((bytes : List ℕ) → AreSums self.old bytes → AreSums self.new bytes) }
    {
        if self.may_let_go() {
            self.let_go();
        }
        self.keep(piece)
    }

    // Whether the first part may go.
    fn may_let_go(&self) -> bool
        ensures room { result ≡ true → 32 ≤ length self.now.held }
        ensures within { result ≡ true → self.now.count + length self.now.block ≤ 67108864 }
        ensures cut { result ≡ true → may_cut self.now.block (take (length self.now.held - 32) self.now.held) ≡ true }
    {
        if self.held.len() < ROOM || !is_within(self.count, self.block.len()) {
            return false;
        }
        let held = self.held.as_slice();
        may_cut(self.block.as_slice(), &held[..held.len() - TAIL])
    }

    // The lines of the first part are taken.
    fn let_go(&mut self)
        requires sums { (bytes : List ℕ) × AreSums self.old bytes }
        requires room { 32 ≤ length self.old.held }
        requires within { self.old.count + length self.old.block ≤ 67108864 }
        requires cut { may_cut self.old.block (take (length self.old.held - 32) self.old.held) ≡ true }
        ensures { (bytes : List ℕ) → AreSums self.old bytes → AreSums self.new bytes }
    {
        let held = mem::replace(&mut self.held, Bytes::new(self.alloc));
        let block = mem::replace(&mut self.block, held);
        self.count += block.len() as u64;
        self.ends += line_count(block.as_slice());
        let taking = mem::replace(&mut self.taking, Taking::Halted(Halt::Memory));
        self.taking = taken(taking, block);
    }

    // Keeps bytes behind the others.
    fn keep(&mut self, piece: &[u8]) -> Result<(), Memory>
        ensures ok { OnOk result ((bytes : List ℕ) → AreSums self.old bytes → AreSums self.new (bytes ++ piece.now)) }
        ensures err { OnErr result (self.new ≡ self.old) }
    {
        put_behind(&mut self.block, &mut self.held, piece)?;
        self.hash = hash_onto(self.hash, piece);
        Ok(())
    }

    /// The line of a load of so many lines that has printed these bytes.
    pub(crate) fn sum_up(self, lines: u64) -> Result<Vec<u8>, Halt>
        requires { (printed : List ℕ) × AreSums self printed }
        ensures ok { IfOk result (λ line. (printed : List ℕ) → AreSums self printed → summed lines printed ≡ record { ending = Done; bytes = line.items }) }
        ensures halts { IfErr result (λ halt. (printed : List ℕ) → AreSums self printed → IsBefore halt (summed lines printed)) }
        ensures printable { IfErr result (λ halt. IsPrintable (ending_of_halt halt)) }
    {
        let Sums {
            alloc,
            taking,
            count,
            ends,
            hash,
            block,
            held,
        } = self;
        let Ok(tail) = quiet_len(alloc, lines) else {
            return Err(Halt::Memory);
        };
        let Ok(rest) = rest_of(alloc, block, &held, tail) else {
            return Err(Halt::Memory);
        };
        let changes = ends + line_count(rest.as_slice());
        let sums = answered(alloc, taking, count, rest)?;
        match summary(alloc, lines, changes, without_last(sums), hash) {
            Ok(line) => Ok(line),
            Err(_) => Err(Halt::Memory),
        }
    }
}

// ---- the bytes

// Whether so many bytes are few enough behind so many.
fn is_within(count: u64, more: usize) -> bool
    ensures few { result ≡ true → count + more ≤ 67108864 }
    ensures many { result ≡ false → 67108864 < count + more }
{
    match count.checked_add(more as u64) {
        Some(all) => all <= LIMIT,
        None => false,
    }
}

// Puts bytes behind two parts: at the end of the first until that is long enough, and then of the second.
fn put_behind(block: &mut Bytes, held: &mut Bytes, piece: &[u8]) -> Result<(), Memory>
    ensures whole { OnOk result (block.new ++ held.new ≡ (block.old ++ held.old) ++ piece.now) }
    ensures first { OnOk result ((more : List ℕ) × (block.new ≡ block.old ++ more)) }
    ensures block { OnErr result (block.new ≡ block.old) }
    ensures held { OnErr result (held.new ≡ held.old) }
{
    if held.is_empty() && block.len() < ROOM {
        block.extend(piece)
    } else {
        held.extend(piece)
    }
}

// The bytes of both parts without the last ones.
fn rest_of(alloc: Global, block: Bytes, held: &Bytes, tail: usize) -> Result<Bytes, Memory>
    ensures { IfOk result (λ rest. rest ≡ take (length (block ++ held.now) - tail) (block ++ held.now)) }
{
    let mut all = block;
    all.extend(held.as_slice())?;
    let count = all.len().saturating_sub(tail);
    Bytes::from_slice(alloc, &all.as_slice()[..count])
}

// The hash of bytes of which the first have this hash, and these are the others.
fn hash_onto(hash: u64, more: &[u8]) -> u64
    ensures { result ≡ fold with_byte hash more.now }
{
    let mut sum = hash;
    for byte in more {
        sum = sum.wrapping_mul(31).wrapping_add(u64::from(*byte));
    }
    sum
}

// ---- the lines

// No line is taken.
fn begun(alloc: Global) -> Taking
    ensures { TakesAs result [] }
{
    match accepted(alloc) {
        Ok(script) => match FeedFold::new(alloc, &script.inserted.sources) {
            Ok(feed) => Taking::Going(script, feed),
            Err(_) => Taking::Halted(Halt::Memory),
        },
        Err(halt) => Taking::Halted(halt),
    }
}

// The text of the script that sums.
#[tactic(auto, unfolding(crate::specs::Loads::sums_script))]
fn script_text(alloc: Global) -> Result<Bytes, Memory>
    ensures text { IfOk result (λ text. text ≡ sums_script) }
    ensures short { IfOk result (λ text. length text ≤ 262144) }
{
    Bytes::from_slice(alloc, SUMS_SCRIPT.as_bytes())
}

// The script that sums.
fn accepted(alloc: Global) -> Result<Accepted, Halt>
    ensures ok { IfOk result (λ script. judgement sums_script ≡ Ok (accepted_view script)) }
    ensures halts { IfErr result (λ halt. IsHalt halt (judgement sums_script)) }
{
    match script_text(alloc) {
        Ok(text) => judged(alloc, &text),
        Err(_) => Err(Halt::Memory),
    }
}

// The lines of the next part are taken.
fn taken(taking: Taking, part: Bytes) -> Taking
    requires { (records : List Record) × TakesAs taking records × (length records + length part ≤ 67108864) }
    ensures { (records : List Record) → TakesAs taking records → TakesAs result (records ++ records_of part) }
{
    match taking {
        Taking::Going(script, feed) => more_taken(script, feed, part),
        Taking::Halted(halt) => Taking::Halted(halt),
    }
}

fn more_taken(script: Accepted, feed: FeedFold, part: Bytes) -> Taking
    requires { (records : List Record) × FeedStands feed script.inserted.sources records × (length records + length part ≤ 67108864) }
    ensures { (records : List Record) → TakesAs (Taking.Going script feed) records → TakesAs result (records ++ records_of part) }
{
    let mut feed = feed;
    match feed.take(part.as_slice()) {
        Ok(()) => Taking::Going(script, feed),
        Err(TakeFault::Refused { code, line, table }) => {
            Taking::Halted(Halt::Change { code, line, table })
        }
        Err(TakeFault::Memory) => Taking::Halted(Halt::Memory),
    }
}

// ---- the sums

// The line of the sums over all bytes, of which these are the last.
fn answered(alloc: Global, taking: Taking, count: u64, rest: Bytes) -> Result<Vec<u8>, Halt>
    requires { (gone : List ℕ) × IsRest taking count rest gone }
    ensures ok { IfOk result (λ sums. (gone : List ℕ) → IsRest taking count rest gone → (next : List ℕ → Outcome) → behind next (sums_answer (gone ++ rest)) ≡ next sums.items) }
    ensures halts { IfErr result (λ halt. (gone : List ℕ) → IsRest taking count rest gone → (next : List ℕ → Outcome) → IsBefore halt (behind next (sums_answer (gone ++ rest)))) }
    ensures printable { IfErr result (λ halt. IsPrintable (ending_of_halt halt)) }
{
    if !is_within(count, rest.len()) {
        return Err(Halt::Limit(LimitName::Changes));
    }
    match taken(taking, rest) {
        Taking::Going(script, feed) => answer_of(alloc, &script, feed),
        Taking::Halted(halt) => Err(halt),
    }
}

// The line of the sums over the lines that are taken, which are those of a whole file.
fn answer_of(alloc: Global, script: &Accepted, feed: FeedFold) -> Result<Vec<u8>, Halt>
    requires accepted { judgement sums_script ≡ Ok (accepted_view script.now) }
    requires stands { (bytes : List ℕ) × FeedStands feed script.now.inserted.sources (records_of bytes) }
    ensures ok { IfOk result (λ sums. (bytes : List ℕ) → FeedStands feed script.now.inserted.sources (records_of bytes) → (next : List ℕ → Outcome) → behind next (sums_of (records_of bytes)) ≡ next sums.items) }
    ensures halts { IfErr result (λ halt. (bytes : List ℕ) → FeedStands feed script.now.inserted.sources (records_of bytes) → (next : List ℕ → Outcome) → IsBefore halt (behind next (sums_of (records_of bytes)))) }
    ensures printable { IfErr result (λ halt. IsPrintable (ending_of_halt halt)) }
{
    let Ok(tables) = feed.into_bags() else {
        return Err(Halt::Memory);
    };
    let mut kept = GrowingSink::new(alloc);
    let ran = batch_over(alloc, script, &tables, &mut kept);
    kept_by(ran, kept)
}
