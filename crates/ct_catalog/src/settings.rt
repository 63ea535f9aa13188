//! The settings of a script.
ghost use Rattle.std.specs.Prelude.{◌≡◌, ◌==◌, map};
ghost use Rattle.std.specs.Char.{is_ascii_alphabetic};
ghost use Rattle.std.specs.List.{list_all};
ghost use Rattle.ct_catalog.specs.Setting.{defaults, key_in, key_of, truth_of, phases_of, materialize_of, after_spaces, is_unit, may_follow_zero, is_zero_time, with_value, fault_of, set_of};

use crate::numbers::count_up_to;
use crate::types::is_word;
use ct_value::{ScriptCode, Text};

/// When an upsert sink is given a materialiser.
#[derive(Clone, Copy, Debug, PartialEq, Eq)]
pub enum Materialize {
    None,
    Auto,
    Force,
}

/// The settings that have an effect. `batch_size` is kept also while `batching` is off.
#[derive(Clone, Copy, Debug, PartialEq, Eq)]
pub struct Settings {
    pub batching: bool,
    pub batch_size: u32,
    pub two_phase: bool,
    pub materialize: Materialize,
    pub parallelism: u32,
}

// What a key sets. A free key takes any value and sets nothing.
#[derive(Clone, Copy)]
enum Key {
    Batching,
    BatchSize,
    Phases,
    Sinks,
    StateTime,
    Parallelism,
    RuntimeMode,
    Free,
}

const KEYS: [(&[u8], Key); 10] = [
    (b"table.exec.mini-batch.enabled", Key::Batching),
    (b"table.exec.mini-batch.size", Key::BatchSize),
    (b"table.exec.mini-batch.allow-latency", Key::Free),
    (b"table.optimizer.agg-phase-strategy", Key::Phases),
    (b"table.exec.sink.upsert-materialize", Key::Sinks),
    (b"table.exec.state.ttl", Key::StateTime),
    (b"table.exec.resource.default-parallelism", Key::Parallelism),
    (b"execution.runtime-mode", Key::RuntimeMode),
    (b"pipeline.name", Key::Free),
    (b"execution.checkpointing.interval", Key::Free),
];

const MOST_IN_A_BATCH: u32 = 1_000_000;

const MOST_SUBTASKS: u32 = 16;

impl Settings {
    /// What holds where nothing is set.
    pub(crate) fn defaults() -> Settings
        ensures { result ≡ defaults }
    {
        Settings {
            batching: false,
            batch_size: 1000,
            two_phase: false,
            materialize: Materialize::Auto,
            parallelism: 1,
        }
    }

    /// The settings after `SET 'key' = 'value'`, or what it is refused as.
    pub(crate) fn set(self, key: &Text, value: &Text) -> Result<Settings, ScriptCode>
        ensures { result ≡ set_of key.now value.now self }
    {
        let Some(key) = key_of(key.as_slice()) else {
            return Err(ScriptCode::BadSetting);
        };
        match self.with_value(key, value) {
            Some(settings) => Ok(settings),
            None => Err(fault_of(key)),
        }
    }

    fn with_value(self, key: Key, value: &Text) -> Option<Settings>
        ensures { result ≡ with_value key value.now self }
    {
        match key {
            Key::Batching => truth_of(value).map(|batching| Settings { batching, ..self }),
            Key::BatchSize => count_up_to(MOST_IN_A_BATCH, value.as_slice()).map(
                |batch_size| Settings { batch_size, ..self },
            ),
            Key::Phases => phases_of(value).map(|two_phase| Settings { two_phase, ..self }),
            Key::Sinks => materialize_of(value).map(|materialize| Settings {
                materialize,
                ..self
            }),
            Key::StateTime => is_zero_time(value.as_slice()).then_some(self),
            Key::Parallelism => count_up_to(MOST_SUBTASKS, value.as_slice()).map(
                |parallelism| Settings {
                    parallelism,
                    ..self
                },
            ),
            Key::RuntimeMode => is_word(value, b"streaming").then_some(self),
            Key::Free => Some(self),
        }
    }
}

#[tactic(auto, unfolding(crate::specs::Setting::key_of))]
fn key_of(key: &[u8]) -> Option<Key>
    ensures { result ≡ key_of key.now }
{
    key_in(&KEYS, key)
}

fn key_in(mut table: &[(&[u8], Key)], key: &[u8]) -> Option<Key>
    ensures { result ≡ key_in (map (λ e. (e.0.now, e.1)) table.entry.now) key.now }
{
    while let [entry, rest @ ..] = table {
        if entry.0 == key {
            return Some(entry.1);
        }
        table = rest;
    }
    None
}

fn fault_of(key: Key) -> ScriptCode
    ensures { result ≡ fault_of key }
{
    match key {
        Key::StateTime => ScriptCode::StateTtl,
        _ => ScriptCode::BadSetting,
    }
}

fn truth_of(word: &Text) -> Option<bool>
    ensures { result ≡ truth_of word.now }
{
    if is_word(word, b"true") {
        return Some(true);
    }
    if is_word(word, b"false") {
        return Some(false);
    }
    None
}

fn phases_of(word: &Text) -> Option<bool>
    ensures { result ≡ phases_of word.now }
{
    if is_word(word, b"AUTO") {
        return Some(false);
    }
    if is_word(word, b"ONE_PHASE") {
        return Some(false);
    }
    if is_word(word, b"TWO_PHASE") {
        return Some(true);
    }
    None
}

fn materialize_of(word: &Text) -> Option<Materialize>
    ensures { result ≡ materialize_of word.now }
{
    if is_word(word, b"NONE") {
        return Some(Materialize::None);
    }
    if is_word(word, b"AUTO") {
        return Some(Materialize::Auto);
    }
    if is_word(word, b"FORCE") {
        return Some(Materialize::Force);
    }
    None
}

// Whether this is `0`, also followed by a unit of letters, with any number of spaces or none between them.
fn is_zero_time(text: &[u8]) -> bool
    ensures { result ≡ is_zero_time text.now }
{
    match text {
        [first, rest @ ..] => *first == b'0' && may_follow_zero(rest),
        [] => false,
    }
}

fn may_follow_zero(text: &[u8]) -> bool
    ensures { result ≡ may_follow_zero text.now }
{
    text.is_empty() || is_unit(after_spaces(text))
}

fn is_unit(text: &[u8]) -> bool
    ensures { result ≡ is_unit text.now }
{
    match text {
        [] => false,
        _ => are_letters(text),
    }
}

fn are_letters(text: &[u8]) -> bool
    ensures { result ≡ list_all is_ascii_alphabetic text.now }
{
    text.iter().all(|byte| byte.is_ascii_alphabetic())
}

fn after_spaces(text: &[u8]) -> &[u8]
    ensures { result.now ≡ after_spaces text.now }
{
    let mut rest = text;
    'spaces: while let [first, after @ ..] = rest {
        if *first != b' ' {
            return rest;
        }
        rest = after;
    }
    rest
}
