//! The pages of help, each line of at most 80 characters, and the line of the release.

ghost use Rattle.std.specs.Prelude.{◌≡◌, false};
ghost use Rattle.prep_program.specs.Pages.{begins_a_report, page_text, release_text};

/// A page of help.
#[derive(Clone, Copy, Debug, PartialEq, Eq)]
pub enum Page {
    /// What the program does, its commands and its exit statuses.
    Program,
    /// The command `policy`.
    Policy,
    /// The command `users`.
    Users,
    /// The command `join`.
    Join,
    /// The command `reassemble`.
    Reassemble,
    /// The command `translate`.
    Translate,
    /// The command `look`.
    Look,
    /// The command `cut`.
    Cut,
    /// The command `ready`.
    Ready,
}

/// The line of the release, with the line of `rt version` for the tools of the proofs.
const RELEASE: &str = "turnprep 0.1.0, proved with rattle-kit-13f logic dac8208d650f15bf\n";

const PROGRAM: &str = "\
Makes captures and a policy ready for turnaudit. It judges nothing

Usage: turnprep <COMMAND>

Commands:
  ready       Does all that the captures of a relay in use need before an audit,
              and writes a folder that turnaudit audits
  policy      Writes the policy that coturn's configuration comes to
  users       Writes the credentials of the users that coturn's configuration
              names, or of those whose requests in captures are signed by a
              secret's passwords
  join        Joins the captures of a ring, in their order, to one capture
  reassemble  Puts the fragments of UDP datagrams over IPv4 together, in
              captures
  translate   Puts the public address of a one-to-one translation in the place
              of the private one, in captures
  look        Prints what captures hold, and what to do before their audit
  cut         Leaves out of captures what can't be judged, and lists it
  help        Prints this page, or that of a command

Options:
  -h, --help     Print help
  -V, --version  Print version

Exit status:
  0  done
  2  an input is refused; standard error has its number
  3  out of memory
  4  a file can't be read or made, or something can't be written
  5  usage error
  6  cut is done, and kept no datagram of the service
";

const POLICY: &str = "\
Writes the policy that coturn's configuration comes to

Usage: turnprep policy [OPTIONS] --turnserver-conf <FILE>

Options:
      --turnserver-conf <FILE>  coturn's configuration
      --listening-ip <IP>       An address at which coturn listens, which its
                                configuration doesn't say
      --relay-ip <IP>           An address from which coturn relays, which its
                                configuration doesn't say
      --translated              The captures are those with external-ip's
                                addresses put in
  -h, --help                    Print help

Example:
  turnprep policy --turnserver-conf /etc/turnserver.conf > policy

writes a listen line for each address and port at which coturn takes UDP, and a
relay line for each relay address.
";

const USERS: &str = "\
Writes the credentials of the users that coturn's configuration names, or of
those whose requests in captures are signed by a secret's passwords

Usage: turnprep users [OPTIONS] [CAPTURE]...

Arguments:
  [CAPTURE]...  Captures with requests of the users

Options:
      --turnserver-conf <FILE>  coturn's configuration
      --secret-file <FILE>      A file with the secret of which passwords are
                                made (static-auth-secret), in one line
      --realm <R>               The realm, where the configuration doesn't say
                                it, or the only one that is wanted
  -h, --help                    Print help

Examples:
  turnprep users --turnserver-conf /etc/turnserver.conf > creds
  turnprep users --secret-file secret --realm example.org call.pcapng > creds

The second writes a user only where a request of it is signed by the base64 of
the HMAC-SHA1 of its name.
";

const JOIN: &str = "\
Joins the captures of a ring, in their order, to one capture

Usage: turnprep join -o <FILE> <CAPTURE>...

Arguments:
  <CAPTURE>...  Captures, as dumpcap writes them, in their order

Options:
  -o <FILE>   The file that is made; one that is there is never written over
  -h, --help  Print help

Example:
  turnprep join -o call.pcapng \\
      ring_00001_20261126120000.pcapng ring_00002_20261126120500.pcapng

writes call.pcapng: the first file whole, and of each other all blocks but the
section header and the interfaces.
";

const REASSEMBLE: &str = "\
Puts the fragments of UDP datagrams over IPv4 together, in captures

Usage: turnprep reassemble -o <DIR> <CAPTURE>...

Arguments:
  <CAPTURE>...  Captures, as dumpcap writes them, in their order

Options:
  -o <DIR>    The folder, which is there, in which files are made; one that is
              there is never written over
  -h, --help  Print help

Example:
  turnprep reassemble -o whole call.pcapng

writes whole/call.pcapng: all blocks as they are, but in the place of a
datagram's last fragment the whole datagram, and no other fragment.
";

const TRANSLATE: &str = "\
Puts the public address of a one-to-one translation in the place of the private
one, in captures

Usage: turnprep translate --policy <FILE> --external-ip <PUBLIC/PRIVATE>
                          -o <DIR> <CAPTURE>...

Arguments:
  <CAPTURE>...  Captures, as dumpcap writes them, in their order

Options:
      --policy <FILE>                 The policy, with the relay ranges of the
                                      public addresses
      --external-ip <PUBLIC/PRIVATE>  A public address, and the one in the
                                      captures that it stands for
  -o <DIR>                            The folder, which is there, in which files
                                      are made; one that is there is never
                                      written over
  -h, --help                          Print help

Example:
  turnprep translate --policy policy --external-ip 198.18.0.1/192.0.2.1 \\
      -o outer call.pcapng

writes outer/call.pcapng and outer/translated. The policy has the relay ranges
of the public address.
";

const LOOK: &str = "\
Prints what captures hold, and what to do before their audit

Usage: turnprep look [OPTIONS] <CAPTURE>...

Arguments:
  <CAPTURE>...  Captures, as dumpcap writes them, in their order

Options:
      --policy <FILE>       The policy of the audit; without it one is guessed
                            of what answers
      --lifetime <SECONDS>  The longest lifetime of an allocation from before,
                            in seconds: 3600 unless said
  -h, --help                Print help

Example:
  turnprep look --policy policy call.pcapng

prints what stands in the way of an audit of call.pcapng, and the commands that
help.
";

const CUT: &str = "\
Leaves out of captures what can't be judged, and lists it

Usage: turnprep cut [OPTIONS] --policy <FILE> -o <DIR> <CAPTURE>...

Arguments:
  <CAPTURE>...  Captures, as dumpcap writes them, in their order

Options:
      --policy <FILE>       The policy of the audit
  -o <DIR>                  The folder, which is there, in which files are made;
                            one that is there is never written over
      --since <MOMENT>      Leave out what is before: in nanoseconds since 1970,
                            or as 2026-12-01T09:00:00Z
      --until <MOMENT>      Leave out what is after
      --lifetime <SECONDS>  The longest lifetime of an allocation from before,
                            in seconds: 3600 unless said
      --released-ms <MS>    Leave out what is relayed for a client for so long
                            after its Refresh with LIFETIME 0, up to 60000
      --from-start          The server started with the captures, or at the
                            moment of --since
      --no-tcp              No client comes by TCP, TLS, DTLS or IPv6
      --keep-inner          Data between the server's own addresses stays in
  -h, --help                Print help

Example:
  turnprep cut --policy policy -o ready call.pcapng

writes ready/call.pcapng, and ready/set-aside, the list of what was left out,
which is printed as well.
";

const READY: &str = "\
Does all that the captures of a relay in use need before an audit, and writes a
folder that turnaudit audits

Usage: turnprep ready [OPTIONS] -o <DIR> <CAPTURE>...

Arguments:
  <CAPTURE>...  Captures, as dumpcap writes them, also the files of a ring

Options:
      --turnserver-conf <FILE>  coturn's configuration, which the policy and the
                                credentials are made of
      --policy <FILE>           The policy, in place of a configuration
      --creds <FILE>            The credentials, in place of those that the
                                configuration names
  -o <DIR>                      The folder that is made; one that is there is
                                never written over
      --since <MOMENT>          As of turnprep cut, with the others below
      --until <MOMENT>
      --lifetime <SECONDS>
      --released-ms <MS>
      --from-start
      --no-tcp
      --keep-inner
  -h, --help                    Print help

Example:
  turnprep ready --turnserver-conf turnserver.conf -o ready call.pcapng

joins the files of a ring, reassembles fragments, translates addresses and
excludes what can't be judged, each only if the captures need it. ready/ has the
captures, policy, creds, set-aside (the list of what was excluded) and steps
(the commands that do the same by hand). The last line that is printed is the
command that audits the folder.
";

impl Page {
    /// The text of the page, with its last LF. It doesn't begin like a report.
    pub fn text(self) -> &'static str
        ensures text { result.now ≡ page_text self }
        ensures no_report { begins_a_report result.now ≡ false }
    {
        match self {
            Page::Program => PROGRAM,
            Page::Policy => POLICY,
            Page::Users => USERS,
            Page::Join => JOIN,
            Page::Reassemble => REASSEMBLE,
            Page::Translate => TRANSLATE,
            Page::Look => LOOK,
            Page::Cut => CUT,
            Page::Ready => READY,
        }
    }
}

/// The line of the release, with its LF. It doesn't begin like a report.
pub fn release() -> &'static str
    ensures text { result.now ≡ release_text }
    ensures no_report { begins_a_report result.now ≡ false }
{
    RELEASE
}
