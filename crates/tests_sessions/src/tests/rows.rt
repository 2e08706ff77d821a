//! A row of a table: a session, and the expected output of `check`.

use audit_samples::BuildFault;
use std::alloc::{AllocError, Global};
use std::process::Abort;
use std::sync::Wait;
use std::test::Fail;
use std::thread::Threads;
use tests_datagrams::{Built, Step};
use tests_host::{Answer, Files, Output, PLENTY, POLICY, run_program};

/// A session, and the expected output.
#[derive(Clone, Copy)]
pub struct Row {
    pub name: &'static str,
    pub policy: &'static str,
    pub credentials: &'static str,
    /// The certificate's heading, and its skews if it has some.
    pub front: &'static str,
    /// Whether the peer's datagrams are in a capture of their own.
    pub has_two_captures: bool,
    pub steps: &'static [Step<'static>],
    /// The digests of the captures.
    pub digests: Option<&'static str>,
    pub output: Output<'static>,
}

/// The expected output for a session with this number of datagrams that conforms.
macro_rules! conforming {
    ($datagrams:literal) => {
        conforming!($datagrams, 1)
    };
    ($datagrams:literal, $lanes:literal) => {
        Output {
            status: 0,
            out: Some(concat!(
                "turnaudit-report 1\nconforming ",
                $datagrams,
                " datagrams ",
                $lanes,
                " lanes\n"
            )),
            err: Some(""),
        }
    };
}

/// The expected output for a session with a breach of this rule, at this event, of this datagram.
macro_rules! broken {
    ($rule:literal, $event:literal, $datagram:literal) => {
        Output {
            status: 1,
            out: Some(concat!(
                "turnaudit-report 1\nnot shown\nrule ",
                $rule,
                "\n",
                $event,
                "\ndatagram ",
                $datagram,
                "\n"
            )),
            err: Some(""),
        }
    };
}

/// The expected output for a session whose files are refused.
macro_rules! refused {
    ($line:literal) => {
        Output {
            status: 2,
            out: Some(""),
            err: Some($line),
        }
    };
}

pub(crate) use broken;
pub(crate) use conforming;
pub(crate) use refused;

/// A session without datagrams.
pub const SESSION: Row = Row {
    name: "no datagrams",
    policy: POLICY,
    credentials: "user\trealm\tpass\n",
    front: "turnaudit-certificate 1\n",
    has_two_captures: false,
    steps: &[],
    digests: None,
    output: conforming!(0),
};

impl Row {
    /// The captures of the session, and its certificate.
    pub fn build(&self, alloc: Global) -> Result<Built, BuildFault> {
        let mut built = Built::new(alloc, self.has_two_captures, self.front)?;
        for step in self.steps {
            built.take(step)?;
        }
        built.certificate.push_str("end\n")?;
        Ok(built)
    }

    /// The files of the session, with a certificate.
    fn files<'a>(&self, alloc: Global, built: &'a Built, certificate: &'a str) -> Files<'a> {
        let mut files = Files::new(alloc, self.policy, certificate, built.first());
        files.credentials = self.credentials.as_bytes();
        files.second = built.second().unwrap_or(&[]);
        files
    }

    /// The program's output for these arguments and the names of the captures.
    pub fn answer(
        &self,
        rt: &(impl Threads + Wait + Sync),
        alloc: Global,
        words: &[&'static str],
        built: &Built,
        certificate: &str,
    ) -> Result<Answer, AllocError> {
        let mut words = Vec::from_slice(alloc, words)?;
        words.push("capture")?;
        if built.second().is_some() {
            words.push("second")?;
        }
        run_program(
            rt,
            alloc,
            &words,
            &mut self.files(alloc, built, certificate),
            PLENTY,
        )
    }
}

pub static CHECK: [&str; 8] = [
    "turnaudit",
    "check",
    "--policy",
    "policy",
    "--creds",
    "creds",
    "--cert",
    "cert",
];

/// Checks that the captures of each row have its digests, and that `check` has the expected output.
pub fn play(
    rt: &(impl Abort + AllocGlobal + Threads + Wait + Sync),
    rows: &[Row],
) -> Result<(), Fail> {
    let alloc = rt.alloc();
    for row in rows {
        let built = row.build(alloc)?;
        let digests = built.digests()?;
        let is_captured = match row.digests {
            Some(wanted) => digests.as_str() == wanted,
            None => true,
        };
        let answer = row.answer(rt, alloc, &CHECK, &built, &built.certificate)?;
        assert_eq!(rt;
            (is_captured, answer.output_like(&row.output)),
            (true, row.output),
            "{}: {digests}",
            row.name
        );
    }
    Ok(())
}
