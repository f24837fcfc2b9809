//! Case files, and how they are read from texts.

use cert_check::{CaseFile, Certificate, Criterion, read_certificate};
use json_histories::{AnyHistory, History, read_history};
use model_objects::Memory;
use pattern_check::Refutable;
use serde_json::Value;
use std::alloc::Global;

/// A criterion, a history, and a certificate where there is one.
#[derive(Clone, Copy)]
pub struct FileText {
    pub criterion: Criterion,
    pub history: &'static str,
    pub certificate: Option<&'static str>,
}

pub const READ_AFTER_ITS_WRITE: FileText = FileText {
    criterion: Criterion::Cc,
    history: r#"["memory",[[["w",0,1]],[["r",0,1]]]]"#,
    certificate: Some(r#"["cc",[[[1,0]],[[1,1]]],[[[0]],[[0,1]]]]"#),
};

pub const WITHOUT_A_CERTIFICATE: FileText = FileText {
    criterion: Criterion::Cm,
    history: r#"["memory",[[["w",0,1]],[["r",0,1]]]]"#,
    certificate: None,
};

pub const NO_OPERATION: FileText = FileText {
    criterion: Criterion::Ccv,
    history: r#"["memory",[]]"#,
    certificate: Some(r#"["ccv",[],[]]"#),
};

pub const THREE_OF_ONE_SESSION: FileText = FileText {
    criterion: Criterion::Cc,
    history: r#"["memory",[[["w",0,1],["w",0,2],["r",0,2]]]]"#,
    certificate: Some(r#"["cc",[[[1],[2],[3]]],[[[0],[0,0],[0,0,0]]]]"#),
};

pub const VALUES_THAT_NOBODY_WROTE: FileText = FileText {
    criterion: Criterion::Cc,
    history: r#"["memory",[[["r",0,7],["r",0,8]]]]"#,
    certificate: Some(r#"["cc",[[[1],[2]]],[[[0],[0,0]]]]"#),
};

/// An object of which texts give case files. The steps of tests at a desk are generic over it, since a proof takes long for each call at
/// the desk of a memory.
pub trait Filed: Refutable {
    /// The case file of a text.
    fn filed(alloc: Global, text: FileText) -> Option<CaseFile<Self>>;
}

impl Filed for Memory {
    fn filed(alloc: Global, text: FileText) -> Option<CaseFile<Memory>> {
        file_of(alloc, text)
    }
}

/// The case file of a text.
pub fn file_of(alloc: Global, text: FileText) -> Option<CaseFile<Memory>> {
    match text.certificate {
        Some(certificate) => {
            let certificate = certificate_of(alloc, certificate)?;
            file_with(alloc, text.criterion, text.history, Some(certificate))
        }
        None => file_with(alloc, text.criterion, text.history, None),
    }
}

/// The case file of the history in a text, with this certificate or none.
pub fn file_with(
    alloc: Global,
    criterion: Criterion,
    history: &str,
    certificate: Option<Certificate>,
) -> Option<CaseFile<Memory>> {
    match memory(alloc, history) {
        Some(history) => CaseFile::new(history, criterion, certificate).ok(),
        None => {
            drop(certificate);
            None
        }
    }
}

/// The history of a memory in a text.
fn memory(alloc: Global, text: &str) -> Option<History<Memory>> {
    match read_history(alloc, text.as_bytes()) {
        Ok(AnyHistory::Memory(history)) => Some(history),
        Ok(other) => {
            other.discard();
            None
        }
        Err(_refused) => None,
    }
}

/// The certificate in a text.
pub fn certificate_of(alloc: Global, text: &str) -> Option<Certificate> {
    let value = Value::from_slice(alloc, text.as_bytes()).ok()?;
    let certificate = read_certificate(alloc, &value).ok();
    drop(value);
    certificate
}
