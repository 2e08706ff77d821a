//! The fixed texts of the page.

/// The first text about captures from which packets were excluded, if their list is on the page.
pub const CUT: &str =
    "<p><strong>Before this audit turnprep excluded datagrams from the captures</strong>: their list is below (What was excluded). All that follows is about the datagrams that were left in.</p>\n";

/// The first text if a capture's comment is from `turnprep cut`, and no list is on the page.
pub const CUT_BY_COMMENT: &str =
    "<p><strong>Before this audit turnprep excluded packets from the captures</strong>: the comments of the captures (Captures) say how many. <code>turnexplain evidence --excluded FILE</code> appends their list. All that follows is about the packets that were kept.</p>\n";

/// The start of the comment that `turnprep cut` writes.
pub const CUT_COMMENT: &str = "turnprep cut: ";

/// The meaning of `conforming`.
pub const CONFORMING: &str =
    "<p>Some one order of all captured datagrams of the service, each at a moment in its stamp window, keeps every interface's own order and is a run of the RFC 8656 server from an empty table. So every relayed datagram had a live allocation, and a live permission or channel.</p>\n";

/// The text if the program was built with its proofs.
pub const PROVED: &str = "<p>This is proved of the program (docs/HEADLINE.md).</p>\n";

/// The text if it wasn't.
pub const NOT_PROVED: &str =
    "<p><strong>This program was built without its proofs</strong>: nothing is proved of it, and no verdict should come from it.</p>\n";

/// The meaning of `not shown`.
pub const NOT_SHOWN: &str =
    "<p>The order of the captured datagrams that was tried, a certificate, is no run of the RFC 8656 server. Another order may be one, unless the account below ends with <i>Shown</i>: then none is.</p>\n";

/// What neither verdict means.
pub const NOT_SAID: &str =
    "<p>It doesn't say: that the captures hold all that the server sent and received; anything about datagrams at addresses that the policy doesn't name, about clients by TCP, TLS, DTLS or IPv6, about nonces, quotas, reserved ports and checksums, or about extensions (mobility, ICMP attributes, OAuth, USERHASH); nor that the policy and the users are those of the server. Trusted are the toolchain with its library, clang, the C library, and that the operating system gives the bytes that a file holds.</p>\n";

/// How a second person repeats the verdict.
pub const REPEATS: &str =
    "<p>The digests above tell whether the files are the same. <code>check</code> judges by the certificate, whoever wrote it; <code>find</code> writes the one by which this verdict is told, or another. A checker that shares no code with this program is <code>tests/plain</code> of the sources.</p>\n";
