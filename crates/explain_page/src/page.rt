//! The page.

use crate::commands::commands;
use crate::facts::Facts;
use crate::markup::Plain;
use crate::style::{HEAD, STYLE};
use crate::tables::{captures, clients, comments, files, users};
use crate::words::{
    CONFORMING, CUT, CUT_BY_COMMENT, CUT_COMMENT, NOT_PROVED, NOT_SAID, NOT_SHOWN, PROVED, REPEATS,
};
use std::alloc::{AllocError, Global};

/// A section.
fn section(alloc: Global, title: &str, body: &str) -> Result<String, AllocError> {
    format!(in alloc; "<h2>{title}</h2>\n{body}")
}

/// Whether the program was built with its proofs, by its release.
fn is_proved(facts: &Facts<'_>) -> bool {
    !facts.release.ends_with("not proved")
}

/// The first text about captures that `turnprep cut` wrote, by its list or by their comments.
fn cut(facts: &Facts<'_>) -> &'static str {
    if facts.excluded.is_some() {
        return CUT;
    }
    for row in facts.comments {
        if row.text.starts_with(CUT_COMMENT) {
            return CUT_BY_COMMENT;
        }
    }
    ""
}

/// The top of the page: the verdict, and its meaning.
fn verdict(alloc: Global, facts: &Facts<'_>) -> Result<String, AllocError> {
    let head = Plain { text: facts.head };
    let says = if facts.is_conforming {
        CONFORMING
    } else {
        NOT_SHOWN
    };
    let proved = match (is_proved(facts), facts.is_conforming) {
        (false, _) => NOT_PROVED,
        (true, true) => PROVED,
        (true, false) => "",
    };
    let cut = cut(facts);
    format!(in alloc;
        "{HEAD}<title>turnaudit: {head}</title>\n{STYLE}</head>\n<body>\n<h1>Audit of a TURN server by RFC 8656</h1>\n<p class=\"word\">{head}</p>\n{cut}{says}{proved}{NOT_SAID}"
    )
}

/// The explanation of a breach, with the picture.
fn account(alloc: Global, facts: &Facts<'_>) -> Result<String, AllocError> {
    let story = Plain { text: facts.story };
    let mut text = format!(in alloc; "<pre>{story}</pre>\n")?;
    if let Some(picture) = &facts.picture {
        text.push_str(picture.drawn(alloc)?.as_str())?;
    }
    Ok(text)
}

/// The program that computed the verdict.
fn program(alloc: Global, facts: &Facts<'_>) -> Result<String, AllocError> {
    let release = Plain {
        text: facts.release,
    };
    let headline = Plain {
        text: facts.headline,
    };
    match facts.program {
        Some(digests) => {
            let size = digests.size;
            format!(in alloc;
                "<p>turnexplain {release}</p>\n<p>The program: {size} bytes, SHA-256 <code>{digests}</code></p>\n<p>The statement that the proofs are about, docs/headline.txt: SHA-256 <code>{headline}</code></p>\n"
            )
        }
        None => {
            format!(in alloc;
                "<p>turnexplain {release}</p>\n<p>The program's file can't be read.</p>\n<p>The statement that the proofs are about, docs/headline.txt: SHA-256 <code>{headline}</code></p>\n"
            )
        }
    }
}

/// The policy's text.
fn policy(alloc: Global, facts: &Facts<'_>) -> Result<String, AllocError> {
    let policy = Plain { text: facts.policy };
    format!(in alloc; "<pre>{policy}</pre>\n")
}

/// The page with these facts: one HTML file, which loads nothing. The same facts result in the same
/// page.
pub fn page_of(alloc: Global, facts: &Facts<'_>) -> Result<String, AllocError> {
    let mut page = verdict(alloc, facts)?;
    let account = account(alloc, facts)?;
    page.push_str(section(alloc, "The account", account.as_str())?.as_str())?;
    let rows = clients(alloc, facts)?;
    page.push_str(section(alloc, "Clients", rows.as_str())?.as_str())?;
    let rows = files(alloc, facts)?;
    page.push_str(section(alloc, "What was read", rows.as_str())?.as_str())?;
    let rows = captures(alloc, facts)?;
    page.push_str(section(alloc, "Captures", rows.as_str())?.as_str())?;
    page.push_str(comments(alloc, facts)?.as_str())?;
    if let Some(list) = facts.excluded {
        let list = Plain { text: list };
        let body = format!(in alloc; "<pre>{list}</pre>\n")?;
        page.push_str(section(alloc, "What was excluded", body.as_str())?.as_str())?;
    }
    let text = policy(alloc, facts)?;
    page.push_str(section(alloc, "Policy", text.as_str())?.as_str())?;
    let rows = users(alloc, facts)?;
    page.push_str(section(alloc, "Users", rows.as_str())?.as_str())?;
    let text = program(alloc, facts)?;
    page.push_str(section(alloc, "Program", text.as_str())?.as_str())?;
    let text = commands(alloc, facts)?;
    page.push_str(section(alloc, "How to repeat it", text.as_str())?.as_str())?;
    page.push_str(REPEATS)?;
    page.push_str("</body>\n</html>\n")?;
    Ok(page)
}
