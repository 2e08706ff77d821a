//! The pages of help, each line of at most 80 characters, and the line of the release.

ghost use Rattle.std.specs.Prelude.{◌≡◌, false, IfSome};
ghost use Rattle.audit_program.specs.Pages.{begins_a_report, page_text, release_text};

/// A page of help.
#[derive(Clone, Copy, Debug, PartialEq, Eq)]
pub enum Page {
    /// What the program does, its commands and its exit statuses.
    Program,
    /// The command `audit`.
    Audit,
    /// The command `find`.
    Find,
    /// The command `live`.
    Live,
    /// The command `check`.
    Check,
}

/// The release, and the line of `rt version` that names what it is proved with.
const RELEASE: &str = "turnaudit 0.1.0, proved with rattle-kit-13f logic dac8208d650f15bf\n";

const PROGRAM: &str = "\
Judges captures of a TURN server by RFC 8656: did it relay anything without an
allocation and a permission or channel?

Usage: turnaudit <COMMAND>

Commands:
  audit  Finds an order in which the server kept to its rules, and judges the
         captures by it
  find   Finds an order in which the server kept to its rules, and writes it as
         a certificate
  live   Judges captures while they grow, turn by turn, until they end or a rule
         is broken
  check  Judges captures by a certificate, whoever wrote it
  help   Prints this page, or that of a command

Options:
  -h, --help     Print help
  -V, --version  Print version

Exit status:
  0  conforming, or a certificate is written
  1  not shown
  2  an input is refused; standard error has its number
  3  out of memory
  4  a file can't be read, or the answer can't be written
  5  usage error
";

const AUDIT: &str = "\
Finds an order in which the server kept to its rules, and judges the captures by
it

Usage: turnaudit audit [OPTIONS] --policy <POLICY> <CAPTURE>...

Arguments:
  <CAPTURE>...  Captures of the server's interfaces, as dumpcap writes them;
                their order numbers them from 0

Options:
      --policy <POLICY>      Which endpoints are the server's
      --creds <CREDENTIALS>  The server's users and their passwords; without it
                             there are none
      --workers <N>          How many threads go to work at once, 1 to 256; the
                             answer is the same [default: 1]
  -h, --help                 Print help

Example:
  turnaudit audit --policy policy --creds users client.pcapng peer.pcapng

prints 'conforming', or 'not shown' with the first rule that is broken, its
place and the datagram that shows it.
";

const FIND: &str = "\
Finds an order in which the server kept to its rules, and writes it as a
certificate

Usage: turnaudit find [OPTIONS] --policy <POLICY> <CAPTURE>...

Arguments:
  <CAPTURE>...  Captures of the server's interfaces, as dumpcap writes them;
                their order numbers them from 0

Options:
      --policy <POLICY>      Which endpoints are the server's
      --creds <CREDENTIALS>  The server's users and their passwords; without it
                             there are none
      --workers <N>          How many threads go to work at once, 1 to 256; the
                             answer is the same [default: 1]
  -h, --help                 Print help

Example:
  turnaudit find --policy policy --creds users client.pcapng peer.pcapng > cert
";

const LIVE: &str = "\
Judges captures while they grow, turn by turn, until they end or a rule is
broken

Usage: turnaudit live [OPTIONS] --policy <POLICY> <CAPTURE>...

Arguments:
  <CAPTURE>...  Captures of the server's interfaces, as dumpcap writes them;
                their order numbers them from 0

Options:
      --policy <POLICY>      Which endpoints are the server's
      --creds <CREDENTIALS>  The server's users and their passwords; without it
                             there are none
      --idle <N>             After how many turns without a byte, each at least
                             a tenth of a second, the captures have ended, 1 to
                             1000000 [default: 1]
      --turns <N>            After how many turns of up to 65536 bytes of each
                             capture they have ended, 1 to 1000000
                             [default: 1000000]
  -h, --help                 Print help

Example:
  turnaudit live --policy policy --creds users --idle 600 client.pcapng

reads what dumpcap still writes, and ends a minute after the last byte, or with
the first rule that is broken.
";

const CHECK: &str = "\
Judges captures by a certificate, whoever wrote it

Usage: turnaudit check [OPTIONS] --policy <POLICY> --cert <CERTIFICATE>
                       <CAPTURE>...

Arguments:
  <CAPTURE>...  Captures of the server's interfaces, as dumpcap writes them;
                their order numbers them from 0

Options:
      --policy <POLICY>      Which endpoints are the server's
      --creds <CREDENTIALS>  The server's users and their passwords; without it
                             there are none
      --cert <CERTIFICATE>   Where each datagram is placed
      --workers <N>          How many threads go to work at once, 1 to 256; the
                             answer is the same [default: 1]
  -h, --help                 Print help

Example:
  turnaudit check --policy policy --creds users --cert certificate turn.pcapng
";

impl Page {
    /// The text of the page, with its last LF. No report begins with it.
    pub fn text(self) -> &'static str
        ensures text { result.now ≡ page_text self }
        ensures no_report { begins_a_report result.now ≡ false }
    {
        match self {
            Page::Program => PROGRAM,
            Page::Audit => AUDIT,
            Page::Find => FIND,
            Page::Live => LIVE,
            Page::Check => CHECK,
        }
    }
}

/// The line of the release, with its LF. No report begins with it.
pub fn release() -> &'static str
    ensures text { result.now ≡ release_text }
    ensures no_report { begins_a_report result.now ≡ false }
{
    RELEASE
}

/// The page of this text, if it is one.
pub fn page_of(text: &str) -> Option<Page>
    ensures { IfSome result (λ page. page_text page ≡ text.now) }
{
    let pages = [
        Page::Program,
        Page::Audit,
        Page::Find,
        Page::Live,
        Page::Check,
    ];
    pages.into_iter().find(|page| page.text() == text)
}
