//! The words of the command line.
ghost use Rattle.std.specs.Prelude.{◌≡◌, ◌≤◌, IfSome, Some, map, option_map, string_bytes};
ghost use Rattle.std.specs.Char.{is_ascii_digit};
ghost use Rattle.std.specs.List.{list_all};
ghost use Rattle.ul_commands.specs.Asked.{lock, relock, why};
ghost use Rattle.ul_commands.specs.Views.{HasWorkers, view};
ghost use Rattle.ul_program.specs.Words.{question, asked_command, asked_lock, asked_why, asked_relock, asked_env, asked_check, asked_gen, asked_export, asked_marker, asked_verify, generated, leads_well, is_decimal, is_number_in, number_in, seed_of, size_of, with_workers, workers_of};

use ul_commands::Asked;

/// What the words ask.
#[tactic(auto, unfolding(crate::specs::Words::question))]
pub fn ask(words: &[String]) -> Asked<'_>
    ensures asked { view result ≡ question (map string_bytes words.now) }
    ensures workers { HasWorkers result }
{
    match words {
        [] => Asked::Usage,
        [verb, rest @ ..] => ask_command(verb.as_str(), rest),
    }
}

fn ask_command<'a>(verb: &str, rest: &'a [String]) -> Asked<'a>
    ensures asked { view result ≡ asked_command verb.now (map string_bytes rest.now) }
    ensures workers { HasWorkers result }
{
    match verb {
        "lock" => ask_lock(rest),
        "why" => ask_why(rest),
        "relock" => ask_relock(rest),
        "env" => ask_env(rest),
        "check" => ask_check(rest),
        "gen" => ask_gen(rest),
        "export" => ask_export(rest),
        "marker" => ask_marker(rest),
        "verify" => ask_verify(rest),
        _ => Asked::Usage,
    }
}

// A lock by the workers of a word.
fn lock_by<'a>(project: &'a str, folder: &'a str, workers: &str, old: Option<&'a str>) -> Asked<'a>
    ensures asked { view result ≡ with_workers (λ n. lock project.now folder.now n (option_map (λ p. p.now) old.entry))
        (workers_of workers.now) }
    ensures workers { HasWorkers result }
{
    match workers_of(workers) {
        Some(workers) => Asked::Lock {
            project,
            folder,
            workers,
            old,
        },
        None => Asked::Usage,
    }
}

fn ask_lock(rest: &[String]) -> Asked<'_>
    ensures asked { view result ≡ asked_lock (map string_bytes rest.now) }
    ensures workers { HasWorkers result }
{
    match rest {
        [project, folder, workers] => {
            lock_by(project.as_str(), folder.as_str(), workers.as_str(), None)
        }
        [project, folder, workers, old] => lock_by(
            project.as_str(),
            folder.as_str(),
            workers.as_str(),
            Some(old.as_str()),
        ),
        _ => Asked::Usage,
    }
}

// Why there is no lock, by the workers of a word.
fn why_by<'a>(project: &'a str, folder: &'a str, workers: &str, old: Option<&'a str>) -> Asked<'a>
    ensures asked { view result ≡ with_workers (λ n. why project.now folder.now n (option_map (λ p. p.now) old.entry))
        (workers_of workers.now) }
    ensures workers { HasWorkers result }
{
    match workers_of(workers) {
        Some(workers) => Asked::Why {
            project,
            folder,
            workers,
            old,
        },
        None => Asked::Usage,
    }
}

fn ask_why(rest: &[String]) -> Asked<'_>
    ensures asked { view result ≡ asked_why (map string_bytes rest.now) }
    ensures workers { HasWorkers result }
{
    match rest {
        [project, folder, workers] => {
            why_by(project.as_str(), folder.as_str(), workers.as_str(), None)
        }
        [project, folder, workers, old] => why_by(
            project.as_str(),
            folder.as_str(),
            workers.as_str(),
            Some(old.as_str()),
        ),
        _ => Asked::Usage,
    }
}

// What becomes of an old lock, by the workers of a word.
fn relock_by<'a>(project: &'a str, folder: &'a str, workers: &str, old: &'a str) -> Asked<'a>
    ensures asked { view result ≡ with_workers (λ n. relock project.now folder.now n old.now)
        (workers_of workers.now) }
    ensures workers { HasWorkers result }
{
    match workers_of(workers) {
        Some(workers) => Asked::Relock {
            project,
            folder,
            workers,
            old,
        },
        None => Asked::Usage,
    }
}

fn ask_relock(rest: &[String]) -> Asked<'_>
    ensures asked { view result ≡ asked_relock (map string_bytes rest.now) }
    ensures workers { HasWorkers result }
{
    match rest {
        [project, folder, workers, old] => relock_by(
            project.as_str(),
            folder.as_str(),
            workers.as_str(),
            old.as_str(),
        ),
        _ => Asked::Usage,
    }
}

fn ask_env(rest: &[String]) -> Asked<'_>
    ensures asked { view result ≡ asked_env (map string_bytes rest.now) }
    ensures workers { HasWorkers result }
{
    match rest {
        [lock, machine, extras @ ..] => Asked::Env {
            lock: lock.as_str(),
            machine: machine.as_str(),
            extras,
        },
        _ => Asked::Usage,
    }
}

fn ask_check(rest: &[String]) -> Asked<'_>
    ensures asked { view result ≡ asked_check (map string_bytes rest.now) }
    ensures workers { HasWorkers result }
{
    match rest {
        [project, folder, derivation] => Asked::Check {
            project: project.as_str(),
            folder: folder.as_str(),
            derivation: derivation.as_str(),
        },
        _ => Asked::Usage,
    }
}

// A generated project's lock, by the workers of a word.
fn gen_by<'a>(seed: u64, size: u64, workers: &str) -> Asked<'a>
    requires { (1 ≤ size) × (size ≤ 2000) }
    ensures asked { view result ≡ generated (Some seed) (Some size) (workers_of workers.now) }
    ensures workers { HasWorkers result }
{
    match workers_of(workers) {
        Some(workers) => Asked::Gen {
            seed,
            size,
            workers,
        },
        None => Asked::Usage,
    }
}

fn ask_generated<'a>(seed: &str, size: &str, workers: &str) -> Asked<'a>
    ensures asked { view result ≡ generated (seed_of seed.now) (size_of size.now) (workers_of workers.now) }
    ensures workers { HasWorkers result }
{
    let Some(seed) = number_in(seed, 0, u64::MAX) else {
        return Asked::Usage;
    };
    let Some(size) = number_in(size, 1, 2_000) else {
        return Asked::Usage;
    };
    gen_by(seed, size, workers)
}

fn ask_gen(rest: &[String]) -> Asked<'_>
    ensures asked { view result ≡ asked_gen (map string_bytes rest.now) }
    ensures workers { HasWorkers result }
{
    match rest {
        [seed, size, workers] => ask_generated(seed.as_str(), size.as_str(), workers.as_str()),
        _ => Asked::Usage,
    }
}

fn ask_export(rest: &[String]) -> Asked<'_>
    ensures asked { view result ≡ asked_export (map string_bytes rest.now) }
    ensures workers { HasWorkers result }
{
    match rest {
        [lock, extras @ ..] => Asked::Export {
            lock: lock.as_str(),
            extras,
        },
        _ => Asked::Usage,
    }
}

fn ask_marker(rest: &[String]) -> Asked<'_>
    ensures asked { view result ≡ asked_marker (map string_bytes rest.now) }
    ensures workers { HasWorkers result }
{
    match rest {
        [file] => Asked::Marker {
            file: file.as_str(),
        },
        _ => Asked::Usage,
    }
}

fn ask_verify(rest: &[String]) -> Asked<'_>
    ensures asked { view result ≡ asked_verify (map string_bytes rest.now) }
    ensures workers { HasWorkers result }
{
    match rest {
        [project, folder, lock] => Asked::Verify {
            project: project.as_str(),
            folder: folder.as_str(),
            lock: lock.as_str(),
        },
        _ => Asked::Usage,
    }
}

// The number of workers of a word, 1 to 64.
fn workers_of(word: &str) -> Option<u64>
    ensures value { result ≡ workers_of word.now }
    ensures range { IfSome result (λ n. (1 ≤ n) × (n ≤ 64)) }
{
    number_in(word, 1, 64)
}

// The number of a word, from `low` to `high`.
fn number_in(word: &str, low: u64, high: u64) -> Option<u64>
    ensures value { result ≡ number_in low high word.now }
    ensures range { IfSome result (λ n. (low ≤ n) × (n ≤ high)) }
{
    if !is_number_in(word, low, high) {
        return None;
    }
    match word.parse::<u64>() {
        Ok(number) => Some(number),
        Err(_) => None,
    }
}

// A decimal number without sign and without a leading zero, from `low` to `high`.
#[tactic(auto, using(crate::proofs::Numbers::not_decimal))]
fn is_number_in(word: &str, low: u64, high: u64) -> bool
    ensures { result ≡ is_number_in low high word.now }
{
    if !is_decimal(word.as_bytes()) {
        return false;
    }
    match word.parse::<u64>() {
        Ok(number) => low <= number && number <= high,
        Err(_) => false,
    }
}

fn is_decimal(word: &[u8]) -> bool
    ensures { result ≡ is_decimal word.now }
{
    are_digits(word) && leads_well(word)
}

fn are_digits(word: &[u8]) -> bool
    ensures { result ≡ list_all is_ascii_digit word.now }
{
    word.iter().all(|b| b.is_ascii_digit())
}

fn leads_well(word: &[u8]) -> bool
    ensures { result ≡ leads_well word.now }
{
    match word {
        [] => false,
        [_] => true,
        [first, ..] => *first != b'0',
    }
}
