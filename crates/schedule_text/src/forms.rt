//! The form of a line: the step that its words describe.

ghost use Rattle.std.specs.Prelude.{◌≡◌, ◌<◌, [], IfOk, length, map, option_map};
ghost use Rattle.schedule_text.specs.Forms.{feed_form, form_of, form_of_line, form_view, lose, name_once, only, only_worker, other_form, pair_view, pairs_of, round_form, task_of, task_of_parts};
ghost use Rattle.schedule_text.specs.Forms.Form.{lose};

use crate::words::{count_of, has_empty, is_number, is_text, is_utf8, words_of, worker_of};
use memchr::memchr;
use std::alloc::{AllocError, Global};
use std::collections::BTreeSet;

/// A topic, and how many records of its file to feed.
#[derive(Drop)]
pub(crate) struct Pair<'a> {
    pub(crate) topic: &'a [u8],
    pub(crate) n: u64,
}

/// A step as written: topics by name, and a task by its digits.
#[derive(Drop)]
pub(crate) enum Form<'a> {
    FeedAll,
    Feed(Vec<Pair<'a>>),
    Round(Option<u32>),
    Start(u32),
    Stop(u32),
    Lose { sub: &'a [u8], part: &'a [u8] },
    Drain,
}

/// The form of a line, or None if it isn't UTF-8, if its words aren't separated by single blanks, or if they have no
/// form.
pub(crate) fn form_of_line<'a>(
    alloc: Global,
    line: &'a [u8],
) -> Result<Option<Form<'a>>, AllocError>
    ensures { IfOk result (λ form. option_map form_view form ≡ form_of_line line.now) }
{
    if !is_utf8(line) {
        return Ok(None);
    }
    let words = words_of(alloc, line)?;
    if has_empty(words.as_slice()) {
        return Ok(None);
    }
    form_of(alloc, words.as_slice())
}

/// The form of words, or None if they have none.
fn form_of<'a>(alloc: Global, words: &[&'a [u8]]) -> Result<Option<Form<'a>>, AllocError>
    ensures { IfOk result (λ form. option_map form_view form ≡ form_of (map (λ word. word.now) words.now)) }
{
    let Some((word, more)) = words.split_first() else {
        return Ok(None);
    };
    if is_text(word, "feed") {
        return feed_form(alloc, more);
    }
    if is_text(word, "round") {
        return Ok(round_form(more));
    }
    Ok(other_form(word, more))
}

/// The form of a word and the words after it, if the word is neither `feed` nor `round`.
fn other_form<'a>(word: &[u8], more: &[&'a [u8]]) -> Option<Form<'a>>
    ensures { option_map form_view result ≡ other_form word.now (map (λ word. word.now) more.now) }
{
    if is_text(word, "start") {
        return Some(Form::Start(only_worker(more)?));
    }
    if is_text(word, "stop") {
        return Some(Form::Stop(only_worker(more)?));
    }
    if is_text(word, "lose") {
        return lose_form(only(more)?);
    }
    if is_text(word, "drain") && more.is_empty() {
        return Some(Form::Drain);
    }
    None
}

/// The round after the word `round`: nothing, or `lose` and a worker.
fn round_form<'a>(words: &[&[u8]]) -> Option<Form<'a>>
    ensures { option_map form_view result ≡ round_form (map (λ word. word.now) words.now) }
{
    let Some((word, more)) = words.split_first() else {
        return Some(Form::Round(None));
    };
    if is_text(word, "lose") {
        return Some(Form::Round(Some(only_worker(more)?)));
    }
    None
}

/// The loss of the task that a word names: digits, `_` and digits.
fn lose_form(word: &[u8]) -> Option<Form<'_>>
    ensures { option_map form_view result ≡ option_map lose (task_of word.now) }
{
    let at = memchr(b'_', word)?;
    lose_parts(&word[..at], &word[at + 1..])
}

/// The loss of the task with these two numbers.
fn lose_parts<'a>(sub: &'a [u8], part: &'a [u8]) -> Option<Form<'a>>
    ensures { option_map form_view result ≡ option_map lose (task_of_parts sub.now part.now) }
{
    if is_number(sub) && is_number(part) {
        Some(Form::Lose { sub, part })
    } else {
        None
    }
}

/// The worker that the only word names.
fn only_worker(words: &[&[u8]]) -> Option<u32>
    ensures { result ≡ only_worker (map (λ word. word.now) words.now) }
{
    worker_of(only(words)?)
}

/// The only word, or None if there are none or several.
fn only<'a>(words: &[&'a [u8]]) -> Option<&'a [u8]>
    ensures { option_map (λ word. word.now) result ≡ only (map (λ word. word.now) words.now) }
{
    match words {
        [word] => Some(word),
        _ => None,
    }
}

/// The feed after the word `feed`: `all`, or one or more pairs.
fn feed_form<'a>(alloc: Global, words: &[&'a [u8]]) -> Result<Option<Form<'a>>, AllocError>
    ensures { IfOk result (λ form. option_map form_view form ≡ feed_form (map (λ word. word.now) words.now)) }
{
    if words.len() < 2 {
        return Ok(all_form(words));
    }
    let Some(pairs) = pairs_of(alloc, words)? else {
        return Ok(None);
    };
    if name_once(alloc, pairs.as_slice())? {
        Ok(Some(Form::Feed(pairs)))
    } else {
        Ok(None)
    }
}

/// The feed of all remaining records, if the only word is `all`.
fn all_form<'a>(words: &[&[u8]]) -> Option<Form<'a>>
    requires { length words.now < 2 }
    ensures { option_map form_view result ≡ feed_form (map (λ word. word.now) words.now) }
{
    if is_text(only(words)?, "all") {
        Some(Form::FeedAll)
    } else {
        None
    }
}

/// The pairs that words spell, or None if a count is no count or a topic has no count.
fn pairs_of<'a>(alloc: Global, words: &[&'a [u8]]) -> Result<Option<Vec<Pair<'a>>>, AllocError>
    ensures { IfOk result (λ pairs. option_map (λ pairs. map pair_view pairs.items) pairs ≡ pairs_of (map (λ word. word.now) words.now)) }
{
    let mut pairs = Vec::new(alloc);
    let mut rest = words;
    while let [topic, count, more @ ..] = rest {
        let Some(n) = count_of(count) else {
            return Ok(None);
        };
        pairs.push(Pair { topic, n })?;
        rest = more;
    }
    if rest.is_empty() {
        Ok(Some(pairs))
    } else {
        Ok(None)
    }
}

/// Whether the pairs name each topic at most once.
fn name_once(alloc: Global, pairs: &[Pair]) -> Result<bool, AllocError>
    ensures { IfOk result (λ once. once ≡ name_once [] (map pair_view pairs.now)) }
{
    let mut topics = BTreeSet::new(alloc);
    for pair in pairs {
        if !topics.insert(pair.topic)? {
            return Ok(false);
        }
    }
    Ok(true)
}
