//! The pages of help, each line of at most 80 characters, and the line of the release.

ghost use Rattle.std.specs.Prelude.{◌≡◌, false, IfSome};
ghost use Rattle.explain_program.specs.Pages.{begins_a_report, page_text, release_text};

/// A page of help.
#[derive(Clone, Copy, Debug, PartialEq, Eq)]
pub enum Page {
    /// What the program does, its commands and its exit statuses.
    Program,
    /// The command `verdict`.
    Verdict,
    /// The command `lanes`.
    Lanes,
    /// The command `client`.
    Client,
    /// The command `faults`.
    Faults,
    /// The command `evidence`.
    Evidence,
}

/// The line of the release, with the line of `rt version` for the tools of the proofs.
const RELEASE: &str = "turnexplain 0.1.0, proved with rattle-kit-13f logic dac8208d650f15bf\n";

const PROGRAM: &str = "\
Explains a verdict of turnaudit: the frames, what was due, what the server had,
and the rule

Usage: turnexplain <COMMAND>

Commands:
  verdict   Explains the verdict, and where a rule is broken its frames, what
            was due, and what the server had then
  lanes     Prints a line for each client: its user, its datagrams, and its
            first breach
  client    Prints the events of one client in their order, with the leases that
            last at each
  faults    Prints each datagram that no order of the captures explains: sent
            unasked, or relayed without an allocation, a permission or a channel
  evidence  Writes one page to be filed: the verdict, what it was given on, the
            clients, and how it is repeated
  help      Prints this page, or that of a command

Options:
  -h, --help     Print help
  -V, --version  Print version

Exit status, that of turnaudit:
  0  conforming
  1  not shown
  2  an input is refused; standard error says why
  3  out of memory
  4  a file can't be read or has changed, or the answer can't be written
  5  usage error
  6  conforming, but fewer responses than verdict --expect-answers expects
";

const VERDICT: &str = "\
Explains the verdict, and where a rule is broken its frames, what was due, and
what the server had then

Usage: turnexplain verdict [OPTIONS] --policy <POLICY> <CAPTURE>...

Arguments:
  <CAPTURE>...  Captures of the server's interfaces, as dumpcap writes them;
                their order numbers them from 0

Options:
      --policy <POLICY>      Which endpoints are the server's
      --creds <CREDENTIALS>  The server's users and their passwords; without it
                             there are none
      --cert <CERTIFICATE>   The certificate to judge by; without it one is
                             found, as turnaudit audit does
      --workers <N>          How many threads go to work at once, 1 to 256; the
                             answer is the same [default: 1]
      --json                 One JSON object in place of the text (docs/JSON.md)
      --expect-answers <PERCENT>
                             Status 6 if the captures conform and fewer of their
                             requests have a response, 0 to 100
  -h, --help                 Print help

Example:
  turnexplain verdict --policy policy --creds users client.pcapng peer.pcapng
";

const LANES: &str = "\
Prints a line for each client: its user, its datagrams, and its first breach

Usage: turnexplain lanes [OPTIONS] --policy <POLICY> <CAPTURE>...

Arguments:
  <CAPTURE>...  Captures of the server's interfaces, as dumpcap writes them;
                their order numbers them from 0

Options:
      --policy <POLICY>      Which endpoints are the server's
      --creds <CREDENTIALS>  The server's users and their passwords; without it
                             there are none
      --cert <CERTIFICATE>   The certificate to judge by; without it one is
                             found, as turnaudit audit does
      --workers <N>          How many threads go to work at once, 1 to 256; the
                             answer is the same [default: 1]
      --json                 One JSON object in place of the text (docs/JSON.md)
      --broken               Only the clients that break a rule
  -h, --help                 Print help

Example:
  turnexplain lanes --policy policy --creds users --broken \\
      client.pcapng peer.pcapng
";

const CLIENT: &str = "\
Prints the events of one client in their order, with the leases that last at
each

Usage: turnexplain client [OPTIONS] --policy <POLICY> --lane <N> <CAPTURE>...

Arguments:
  <CAPTURE>...  Captures of the server's interfaces, as dumpcap writes them;
                their order numbers them from 0

Options:
      --policy <POLICY>      Which endpoints are the server's
      --creds <CREDENTIALS>  The server's users and their passwords; without it
                             there are none
      --cert <CERTIFICATE>   The certificate to judge by; without it one is
                             found, as turnaudit audit does
      --workers <N>          How many threads go to work at once, 1 to 256; the
                             answer is the same [default: 1]
      --json                 One JSON object in place of the text (docs/JSON.md)
      --lane <N>             The client's lane, as the commands verdict and
                             lanes print it, 0 to 65535
      --around <N>           How many events each side of its first breach, 0 to
                             1000000; of a client that passes all are printed
                             [default: 20]
  -h, --help                 Print help

Example:
  turnexplain client --policy policy --creds users --lane 1 \\
      client.pcapng peer.pcapng
";

const FAULTS: &str = "\
Prints each datagram that no order of the captures explains: sent unasked, or
relayed without an allocation, a permission or a channel

Usage: turnexplain faults [OPTIONS] --policy <POLICY> <CAPTURE>...

Arguments:
  <CAPTURE>...  Captures of the server's interfaces, as dumpcap writes them;
                their order numbers them from 0

Options:
      --policy <POLICY>      Which endpoints are the server's
      --creds <CREDENTIALS>  The server's users and their passwords; without it
                             there are none
      --workers <N>          How many threads go to work at once, 1 to 256; the
                             answer is the same [default: 1]
  -h, --help                 Print help

Exit status:
  0  none is shown
  1  some are
  2 to 5 as of every command

Example:
  turnexplain faults --policy policy --creds users client.pcapng peer.pcapng
";

const EVIDENCE: &str = "\
Writes one page to be filed: the verdict, what it was given on, the clients, and
how it is repeated

Usage: turnexplain evidence [OPTIONS] --policy <POLICY> -o <FILE> <CAPTURE>...

Arguments:
  <CAPTURE>...  Captures of the server's interfaces, as dumpcap writes them;
                their order numbers them from 0

Options:
      --policy <POLICY>      Which endpoints are the server's
      --creds <CREDENTIALS>  The server's users and their passwords; without it
                             there are none
      --cert <CERTIFICATE>   The certificate to judge by; without it one is
                             found, as turnaudit audit does
      --workers <N>          How many threads go to work at once, 1 to 256; the
                             answer is the same [default: 1]
  -o, --output <FILE>        The page, an HTML file; one that is there is never
                             written over
      --excluded <LIST>      The list of what turnprep cut excluded, filed on
                             the page
  -h, --help                 Print help

Example:
  turnexplain evidence --policy policy --creds users -o audit.html \\
      client.pcapng peer.pcapng
";

impl Page {
    /// The text of the page, with its last LF. It doesn't begin like a report.
    pub fn text(self) -> &'static str
        ensures text { result.now ≡ page_text self }
        ensures no_report { begins_a_report result.now ≡ false }
    {
        match self {
            Page::Program => PROGRAM,
            Page::Verdict => VERDICT,
            Page::Lanes => LANES,
            Page::Client => CLIENT,
            Page::Faults => FAULTS,
            Page::Evidence => EVIDENCE,
        }
    }
}

/// The line of the release, with its LF. It doesn't begin like a report.
pub fn release() -> &'static str
    ensures text { result.now ≡ release_text }
    ensures no_report { begins_a_report result.now ≡ false }
{
    RELEASE
}

/// The release without the program's name.
pub fn version() -> &'static str {
    RELEASE
        .strip_prefix("turnexplain ")
        .unwrap_or(RELEASE)
        .trim_end()
}

/// The page with this text, if there is one.
pub fn page_of(text: &str) -> Option<Page>
    ensures { IfSome result (λ page. page_text page ≡ text.now) }
{
    let pages = [
        Page::Program,
        Page::Verdict,
        Page::Lanes,
        Page::Client,
        Page::Faults,
        Page::Evidence,
    ];
    pages.into_iter().find(|page| page.text() == text)
}
