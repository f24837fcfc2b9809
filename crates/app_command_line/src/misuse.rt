//! Options that exclude one another, and options that ask for another one.

ghost use Rattle.std.specs.Prelude.{◌≡◌, map};
ghost use Rattle.app_command_line.specs.Misuses.{fault_of, first_of, misuses, of_certificates, of_forms, of_lines, of_logs, usage_of};

use crate::given::{gives, has};
use std::convert::AsStr;

/// What may be wrong with words each of which `clap` takes.
#[derive(Clone, Copy)]
pub enum Misuse {
    /// `--names` with `--notes`.
    NamesWithNotes,
    /// `--every` without `--events`.
    EveryWithoutEvents,
    /// `--events` with `--lines`.
    EventsWithLines,
    /// `--events` with `--certificates`.
    EventsWithCertificates,
    /// `--skip-blank` without `--lines`.
    SkipBlankWithoutLines,
    /// `--why` with `--lines`.
    WhyWithLines,
    /// `--summary` or `--at-least-reads` with `--lines`.
    CountsWithLines,
    /// `--all` with `--certificates`.
    AllWithCertificates,
    /// `--long` with `--certificates`.
    LongWithCertificates,
    /// `--svg` with `--certificates`.
    SvgWithCertificates,
    /// `--html` with `--certificates`.
    HtmlWithCertificates,
    /// `--certificates` without `--json`.
    CertificatesWithoutJson,
    /// `--html` with `--json`.
    HtmlWithJson,
    /// `--html` with `--svg`.
    HtmlWithSvg,
    /// `--all` with `--svg`.
    AllWithSvg,
    /// `--svg` with `--json`.
    SvgWithJson,
    /// The name of a store where none is wanted.
    StoreNamed,
    /// Anything else.
    Unexpected,
}

impl Misuse {
    /// What is wrong.
    pub fn fault(self) -> &'static str
        ensures { result.now ≡ fault_of self }
    {
        match self {
            Misuse::NamesWithNotes =>
                "'--names' and '--notes' exclude one another: each asks for an answer of its own",
            Misuse::EveryWithoutEvents =>
                "'--every' asks for a log of events: it counts its events",
            Misuse::EventsWithLines =>
                "'--events' and '--lines' exclude one another: a line of a log is one event, and a line under '--lines' a whole history",
            Misuse::EventsWithCertificates =>
                "'--events' and '--certificates' exclude one another: no certificates are made of histories of any length",
            Misuse::SkipBlankWithoutLines =>
                "'--skip-blank' asks for '--lines': it skips lines where each line holds a history",
            Misuse::WhyWithLines =>
                "'--why' and '--lines' exclude one another: each line is answered by one line",
            Misuse::CountsWithLines =>
                "'--lines' excludes '--summary' and '--at-least-reads': they count one run",
            Misuse::AllWithCertificates =>
                "'--all' and '--certificates' exclude one another: a list of faults has no certificates",
            Misuse::LongWithCertificates =>
                "'--long' and '--certificates' exclude one another: no certificates are made of histories of any length",
            Misuse::SvgWithCertificates =>
                "'--svg' and '--certificates' exclude one another: certificates are written as JSON",
            Misuse::HtmlWithCertificates =>
                "'--html' and '--certificates' exclude one another: certificates are written as JSON",
            Misuse::CertificatesWithoutJson =>
                "'--certificates' asks for '--json': certificates are written as JSON",
            Misuse::HtmlWithJson =>
                "'--html' and '--json' exclude one another: each is a form of the whole answer",
            Misuse::HtmlWithSvg =>
                "'--html' and '--svg' exclude one another: each is a form of the whole answer",
            Misuse::AllWithSvg =>
                "'--all' and '--svg' exclude one another: a list of faults is no picture",
            Misuse::SvgWithJson =>
                "'--svg' and '--json' exclude one another: each is a form of the whole answer",
            Misuse::StoreNamed =>
                "'causal' and 'lamport' name a store, once, after 'drive': a file of that name is written './causal'",
            Misuse::Unexpected => "unexpected words, or options that don't go together",
        }
    }

    /// How the command is used.
    pub fn usage(self) -> &'static str
        ensures { result.now ≡ usage_of self }
    {
        match self {
            Misuse::NamesWithNotes => "events [--names|--notes] [OPTIONS]",
            Misuse::EveryWithoutEvents => "judge --events --every <N> [FILE]...",
            Misuse::EventsWithLines => "judge [--events|--lines] [OPTIONS]",
            Misuse::EventsWithCertificates => "explain --events [OPTIONS]",
            Misuse::SkipBlankWithoutLines => "judge --lines --skip-blank [OPTIONS]",
            Misuse::WhyWithLines => "judge [--why|--lines] [OPTIONS]",
            Misuse::CountsWithLines => "judge [--lines|--summary] [OPTIONS]",
            Misuse::AllWithCertificates => "explain --all <N> [--json]",
            Misuse::LongWithCertificates => "explain --long [OPTIONS]",
            Misuse::SvgWithCertificates => "explain --json --certificates",
            Misuse::HtmlWithCertificates => "explain --json --certificates",
            Misuse::CertificatesWithoutJson => "explain --json --certificates",
            Misuse::HtmlWithJson => "explain [--html|--json] [OPTIONS]",
            Misuse::HtmlWithSvg => "explain [--html|--svg] [OPTIONS]",
            Misuse::AllWithSvg => "explain --all <N> [--json]",
            Misuse::SvgWithJson => "explain [--svg|--json] [OPTIONS]",
            Misuse::StoreNamed => "<COMMAND> [OPTIONS] [FILE]...",
            Misuse::Unexpected => "<COMMAND>",
        }
    }
}

/// What is wrong with the options of some words, if anything is: the first misuse that they have. O(n) for n words.
#[tactic(auto, using(crate::proofs::Misuses::in_forms))]
pub fn misuse_in<S: AsStr>(words: &[S]) -> Option<Misuse>
    ensures { result ≡ first_of (misuses (map S.text words.now)) }
{
    if let Some(misuse) = misuse_of_logs(words) {
        return Some(misuse);
    }
    if let Some(misuse) = misuse_of_lines(words) {
        return Some(misuse);
    }
    if let Some(misuse) = misuse_of_certificates(words) {
        return Some(misuse);
    }
    misuse_of_forms(words)
}

// What is wrong with the options of logs.
fn misuse_of_logs<S: AsStr>(words: &[S]) -> Option<Misuse>
    ensures { result ≡ first_of (of_logs (map S.text words.now)) }
{
    let is_log = has(words, "--events");
    first_of(&[
        (
            has(words, "--names") & has(words, "--notes"),
            Misuse::NamesWithNotes,
        ),
        (
            gives(words, "--every", "--every=") & !is_log,
            Misuse::EveryWithoutEvents,
        ),
        (is_log & has(words, "--lines"), Misuse::EventsWithLines),
        (
            is_log & has(words, "--certificates"),
            Misuse::EventsWithCertificates,
        ),
    ])
}

// What is wrong with the options for lines.
fn misuse_of_lines<S: AsStr>(words: &[S]) -> Option<Misuse>
    ensures { result ≡ first_of (of_lines (map S.text words.now)) }
{
    let is_by_lines = has(words, "--lines");
    first_of(&[
        (
            has(words, "--skip-blank") & !is_by_lines,
            Misuse::SkipBlankWithoutLines,
        ),
        (is_by_lines & has(words, "--why"), Misuse::WhyWithLines),
        (
            is_by_lines & has(words, "--summary"),
            Misuse::CountsWithLines,
        ),
        (
            is_by_lines & gives(words, "--at-least-reads", "--at-least-reads="),
            Misuse::CountsWithLines,
        ),
    ])
}

// What is wrong with the options beside that for certificates.
fn misuse_of_certificates<S: AsStr>(words: &[S]) -> Option<Misuse>
    ensures { result ≡ first_of (of_certificates (map S.text words.now)) }
{
    let is_certified = has(words, "--certificates");
    first_of(&[
        (
            is_certified & gives(words, "--all", "--all="),
            Misuse::AllWithCertificates,
        ),
        (
            is_certified & has(words, "--long"),
            Misuse::LongWithCertificates,
        ),
        (
            is_certified & has(words, "--svg"),
            Misuse::SvgWithCertificates,
        ),
        (
            is_certified & has(words, "--html"),
            Misuse::HtmlWithCertificates,
        ),
        (
            is_certified & !has(words, "--json"),
            Misuse::CertificatesWithoutJson,
        ),
    ])
}

// What is wrong with the options for the form of an answer.
fn misuse_of_forms<S: AsStr>(words: &[S]) -> Option<Misuse>
    ensures { result ≡ first_of (of_forms (map S.text words.now)) }
{
    let is_page = has(words, "--html");
    let is_picture = has(words, "--svg");
    let is_json = has(words, "--json");
    first_of(&[
        (is_page & is_json, Misuse::HtmlWithJson),
        (is_page & is_picture, Misuse::HtmlWithSvg),
        (
            is_picture & gives(words, "--all", "--all="),
            Misuse::AllWithSvg,
        ),
        (is_picture & is_json, Misuse::SvgWithJson),
    ])
}

// The first misuse that is there.
fn first_of(misuses: &[(bool, Misuse)]) -> Option<Misuse>
    ensures { result ≡ first_of misuses.now }
{
    match misuses {
        [] => None,
        [(is_there, misuse), further @ ..] => {
            if *is_there {
                Some(*misuse)
            } else {
                first_of(further)
            }
        }
    }
}
