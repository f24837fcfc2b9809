//! The forms of the steps of a script, in words.

/// The words of steps.
pub(crate) const STEP_WORDS: &str =
    r#""begin", "end", "start", "look", "show", "file", "take", "work", "put", "refute" or "ask""#;

// The words of steps, each with the forms of its steps.
const FORMS: &[(&str, &str)] = &[
    ("begin", r#"["begin",SESSION,CALL]"#),
    ("end", r#"["end",SESSION,RETURN]"#),
    (
        "start",
        r#"["start"] or ["start",COUNTS], with a count from 0 to 256 for each session"#,
    ),
    (
        "look",
        r#"["look",SEALER] or ["look",SEALER,TIMES], TIMES from 1 to 9999"#,
    ),
    ("show", r#"["show",SEALER]"#),
    (
        "file",
        r#"["file",SEALER,CERTIFICATE] or ["file",SEALER,CRITERION]"#,
    ),
    ("take", r#"["take"]"#),
    ("work", r#"["work",CASE,SESSION,OPERATION]"#),
    ("put", r#"["put",CASE,VERDICT]"#),
    ("refute", r#"["refute",CASE,PATTERN]"#),
    ("ask", r#"["ask",CASE]"#),
];

/// The forms of the steps with this word, where it is one.
pub(crate) fn step_form(word: &str) -> Option<&'static str> {
    for (named, form) in FORMS {
        if *named == word {
            return Some(*form);
        }
    }
    None
}
