//! The texts of help.

/// What help says of a command, in addition to its options.
#[derive(Clone, Copy)]
pub(crate) struct Help {
    pub(crate) usage: &'static str,
    /// One line, which the list of commands has too.
    pub(crate) about: &'static str,
    /// What follows the options.
    pub(crate) more: &'static str,
}

pub(crate) const USAGE: &str = "cms-canon <COMMAND>";

pub(crate) const ABOUT: &str = "\
Reads one message from the standard input and writes it in DER, lists it, lists
what its DER changes, says which rules it breaks, writes what one of its
signatures covers, or compares it with a second message. A message is a CMS
signed message (RFC 5652), or a request or a response of time-stamping (RFC
3161), in BER or in DER. With --many, `convert` converts any number of
messages.

DER is the one canonical encoding: two messages are the same if and only if
their DER is identical. No octet that a signature covers is changed. Whether a
signature is right is not checked. Nothing of a message is written before the
whole message is accepted.";

pub(crate) const MORE: &str = "\
Examples:
  cms-canon convert < message.ber > message.der
  cat folder/*.p7s | cms-canon convert --many > all.der
  cms-canon show < message.der
  cms-canon changes < message.ber
  cms-canon check < message.der
  cms-canon cover --signer 0 < message.der > covered
  cat first.der second.der | cms-canon same

`cms-canon help convert` explains the input and the refusals, which are those
of all commands, and `cms-canon help COMMAND` explains each command.";

// scripts/generate writes this from docs/texts/commands.toml.
pub(crate) const SIGNER: &str = "The number of the signer, in the order read, from 0";

pub(crate) const MANY: &str = "Read messages to the end of the input, and write the DER of each";

pub(crate) const JSON: &str = "Write one JSON object in place of lines";

pub(crate) const CONTENT: &str = "Take what follows the message as its content";

pub(crate) const DATA: &str = "Take what follows the message as the time-stamped data";

// The end of the options.

pub(crate) const CONVERT: Help = Help {
    usage: "cms-canon convert [--many] < MESSAGE > DER",
    about: "Write the message from the standard input in DER",
    more: "\
The input is one message, in binary, of at most 268,435,456 octets (256 MiB),
with nothing after it. Its DER may have as many octets. A terminal is sent the
same octets as a file.

Keep the original. Its DER is a different sequence of octets: a checksum, a
time-stamp or an archive time-stamp that was made over the file fits only the
original.

With --many, the input is any number of messages, one right after the other,
and the DER of each is written, in the same order, before more of the input is
awaited. The limit holds for each message by itself. If the input is empty,
nothing is written.

Examples:
  cms-canon convert < message.ber > message.der
All messages of a folder:
  cat folder/*.p7s | cms-canon convert --many > all.der
A message in PEM:
  sed -n '/-----BEGIN/,/-----END/{/-----/d;p}' message.pem | tr -d '\\r' |
    base64 -d | cms-canon convert > message.der
An S/MIME message of the type application/pkcs7-mime (in one of the type
multipart/signed, the attachment smime.p7s is the message):
  sed '1,/^\\r*$/d' message.eml | tr -d '\\r' | base64 -d |
    cms-canon convert > message.der
A request for a time-stamp:
  openssl ts -query -data document -sha256 -cert |
    cms-canon convert > request.tsq

The messages that --many has written can be told apart by their lengths. Each
begins with the octet 30 and its length, both in hexadecimal. If the first
octet of the length is below 80, it is the length; if it is 81 to 88, the next
1 to 8 octets are the length. This lists where each message begins, and how
many octets are in its header (hl) and after the header (l):
  openssl asn1parse -inform DER -in all.der | grep :d=0

A refusal names its reason, and says how many octets of the message were read:
  refused E6 Overrun at 4
Nothing was written then.

With --many, the line says first how many messages were done, which is also the
number, from 0, of the message that the line is about:
  message 1: refused E1 Truncated at 1
  message 1: read fault
  message 1: write fault after 3
The octets are counted from the first one of that message. The messages before
it were written, and nothing of it, except these octets if writing failed.
Nothing after it was written. If there is no memory, the only line is
`out of memory`. If each file of the folder is one message, message 1 is the
second file:
`ls folder/*.p7s | sed -n 2p` prints its name. A newline after a message is
read as the beginning of the next one, which is then refused.

What the reasons mean, and what to do:

  E1         The input ends before the message does. At 0 it is empty. Get the
             whole message.
  E2         The message, its DER, the detached content or the data have more
             than 268,435,456 octets, or a length in the message says so. If it
             is not damaged: `cms-canon-archive check FILE DOCUMENT` takes
             content and data of any length,
             `cms-canon-archive convert --limit` longer messages, and a program
             of your own can give a larger limit.
  E3 to E5   A length is malformed. Get the message again: it is damaged, or
             was badly made.
  E6         An element is longer than what is left of the one around it. Get
             the message again: it is damaged, or was badly made.
  E7         An element is missing, or is not allowed here, or an identifier is
             malformed. Get the message again: it is damaged, or was badly
             made.
  E8         An INTEGER is empty, or longer than it has to be. Only the maker
             of the message can fix it.
  E9         An OBJECT IDENTIFIER is empty, or one of its numbers begins with
             80 or does not end. Only the maker of the message can fix it.
  E10        The contents of a BOOLEAN are not one octet. Only the maker of the
             message can fix it.
  E11        A BIT STRING counts unused bits that it cannot have, or is empty.
             Only the maker of the message can fix it.
  E12        The content is in segments inside segments, more than eight deep.
             Nothing helps: eight is the limit of `cms-canon`.
  E13        A certificate, a revocation list, an attribute value or another
             field that is kept octet for octet is not framed as in DER. Only
             the maker of the message can fix it.
  E14        A certificate, a revocation list, an attribute value or another
             field that is kept octet for octet is nested more than 64 deep.
             Only the maker of the message can fix it.
  E15        Signed attributes are in another order than in DER, or have a
             length that is not DER's. Keep the message as it is: its signature
             covers these octets, so they must not be encoded again.
  E16        Signed or unsigned attributes are there and empty. Only the maker
             of the message can fix it.
  E17        It is CMS, but of another content type, as plain or enveloped
             data. Nothing helps: of CMS only SignedData is converted.
  E18        Something follows the message. At 1434, for example, the message
             is 1433 octets long. Cut the message out: in the example,
             `head -c 1433` does it. If it is the content or the data, give
             `--content` or `--data`. If messages follow, `convert --many`
             converts them too.
  E19        Countersignatures are nested more than four deep. Nothing helps:
             four is the limit of `cms-canon`.

At some places it is clear what the input is:

  E4, E6 or E7 at 2 to 4, or E1 if it is very short
             It is usually text, such as PEM or S/MIME. PEM is E7 at 2, and
             text that begins with the byte-order mark of UTF-8 is E4 at 2.
             Decode it first: `cms-canon help convert` shows how.
  E7 at 6 to about 80
             It is usually another kind of DER file, as a certificate, a
             certificate request, a revocation list, a key or a PKCS #12 file.
             Give the message.
  E7 after the header inside eContent
             The content is no OCTET STRING, as in the signature of a Windows
             program or driver (Authenticode). Nothing helps: it is not CMS.

Exit status:
  0  the message was written, or each of the messages
  2  the words were not understood
  3  the message is refused, or one of the messages
  4  reading or writing failed: `read fault`, or `write fault after N` if
     N octets were written
  5  out of memory",
};

pub(crate) const SHOW: Help = Help {
    usage: "cms-canon show [--json] < MESSAGE",
    about: "List what is in the message, one fact a line",
    more: "\
The input is one message, as for `cms-canon convert`. The listing describes the
message as it was read, and not its DER: the members of a set are in the order
read, so conversion may change the numbers of the signers.

This is the listing of the smallest message:
  kind: signed-data
  version: 1
  digest-algorithms: 0
  content-type: 1.2.840.113549.1.7.1 data
  content: absent
  certificates: absent
  crls: absent
  signers: 0

The line of a set says how many members it has, and each of them follows on a
line that begins with two spaces. The lines of a signer begin with its number,
from 0:
  signer 0 version: 3
  signer 0 id: key 11
  signer 0 digest: 2.16.840.1.101.3.4.2.1 sha256 absent
  signer 0 signed-attributes: 2
    1.2.840.113549.1.9.3 contentType 1
    1.2.840.113549.1.9.4 messageDigest 1
  signer 0 signature-algorithm: 1.2.840.113549.1.1.1 - null
  signer 0 signature: 256 octets
  signer 0 unsigned-attributes: absent

An OBJECT IDENTIFIER is followed by its name, or by - if it has no name here.
Then come the parameters of an algorithm, `absent`, `null` or their octets; or
the number of values of an attribute. An INTEGER that is negative, or is 2^64
or more, is written as 0x and its octets. Octets are in hexadecimal. Of a
certificate, and of whatever else is kept octet for octet, only the number of
octets is listed.

If the message is a time-stamp token, the fields of its TSTInfo follow, or the
line `tst: not der` if it has none in DER. The time is in UTC, and in seconds
since 1970:
  tst-time: 2024-02-29T12:00:00Z 1709208000

The listing of a request begins with `kind: request`, and that of a response
with `kind: response`. The listing of its token follows `token: present`.

With --json, all fields are one object, whose members docs/FORMATS.md explains:
what the listing only counts, as certificates and values of attributes, too.

Examples:
  cms-canon show < message.der
  cms-canon show --json < message.der
  cms-canon show < response.tsr | grep tst-time

The refusals and the exit statuses are those of `cms-canon convert`.",
};

pub(crate) const CHANGES: Help = Help {
    usage: "cms-canon changes [--json] < MESSAGE",
    about: "List what conversion changes in the message",
    more: "\
The input is one message, as for `cms-canon convert`. A line is written for
each change from the message to its DER, in the order of the message, and a
last one that counts them; or the line `no change`, if the message is its own
DER.

Places are in octets of the message, from 0. Octets are in hexadecimal: those
of the message, and after -> those of the DER. A header is an identifier and a
length; what is after it is shown of a BOOLEAN and of named bits alone.

  at 0 length made definite: 30 80 -> 30 23
      The length is indefinite in the message, which DER does not allow.
  at 5 length in fewest octets: 30 84 00 00 00 25 -> 30 23
      The length has more octets than it needs.
  at 5 length of what is inside: 30 25 -> 30 23
      The length is another one, since what is inside is changed.
  at 13 segments joined: 4 segments, 1024 octets
      A string is in segments in the message, and in one piece in DER.
  at 92 moved from member 3 to member 0 of digestAlgorithms
      DER has the members of a set in ascending order. Numbers are from 0.
  at 120 BOOLEAN 01 -> ff
      TRUE is ff in DER.
  at 133 default omitted: 01 01 00
      A field that has its default value is left out.
  at 40 trailing zero bits removed: 03 02 00 80 -> 03 02 07 80
      Bits that have names end with the last one that is set.
  at 40 unused bits set to zero: 03 02 07 ff -> 03 02 07 80
      Bits after the last one are zero in DER.
  107 octets in, 81 out, 70 of them from the input, 9 changes

With --json, all of this is one object, whose members docs/FORMATS.md explains.

Examples:
  cms-canon changes < message.ber
  cms-canon changes --json < message.ber

The refusals and the exit statuses are those of `cms-canon convert`.",
};

pub(crate) const CHECK: Help = Help {
    usage: "cms-canon check [--content | --data] < MESSAGE",
    about: "Say which rules of the standards the message breaks",
    more: "\
The rules are the findings F1 to F19 below, most of them of RFC 5652, RFC 3161
and RFC 5035. No other rule of these standards is checked: nothing is said, for
example, of a signing-time among unsigned attributes, of a countersignature, of
what a certificate says, or of whether the nonce of a response is that of its
request. There is a line for each finding: its number, the signer that it is
about, if any, and what is found. Signers are numbered in the order read, from
0. If nothing is found, the line is `no findings`.
  F9 no content
  F7 signer 0 message digest differs

The command verifies no signature: F18 says so of each signer whose signature
covers anything. `cms-canon help cover` shows how openssl verifies one.

With --content, all that follows the message is its detached content. It is
used only if the message has no content of its own. With --data, it is the data
that were time-stamped. If nothing follows the message, these are empty. Only
one of the two options can be given. More than 268,435,456 octets are refused
with E2: `cms-canon-archive check FILE DOCUMENT` takes documents of any length.

Of a response, the token is checked, and whether the status goes with it. Of a
request, only the imprint is checked, with --data.

Examples:
  cms-canon check < message.der
  cat message.der content | cms-canon check --content
  cat response.tsr document | cms-canon check --data

What the findings mean, and what to do. If it does not say what to do, only the
maker of the message can fix it:

  F1   The version of the message is not the one that its other fields require.
  F2   The version of a signer is not 1 with issuer and serial number, or not 3
       with a key identifier.
  F3   A signer has no signed attributes: content that is not of the type data
       needs them.
  F4   There is not exactly one attribute content-type, with one value.
  F5   The attribute content-type is not the type of the content.
  F6   There is not exactly one attribute message-digest, or its value is not
       one OCTET STRING.
  F7   The content is not what was signed: its digest is another one. Give the
       content unchanged; text in S/MIME has lines that end in CR LF. If it is
       the right one, it or the message was changed: do not trust it.
  F8   A digest algorithm is none of SHA-1 and SHA-2. Use another tool.
  F9   The content is detached. Give it after the message, with `--content`.
  F10  The digest algorithm of a signer is not in the list of the message.
  F11  The message, or what a response holds, is not a time-stamp token. Give
       the token, or leave out `--data`.
  F12  A token does not have exactly one signer.
  F13  The content of a token is not a TSTInfo in DER, so that it says nothing.
  F14  The imprint is that of other data. Give the data that were time-stamped.
       If these are the right ones, they or the token were changed: do not
       trust it.
  F15  The signer of a token does not say which certificate is its own.
  F16  The message has certificates, but not the one that the signer of the
       token names. Look for the certificate elsewhere.
  F17  A signature is wrong. Only the library reports this, with a verifier of
       the caller. Do not trust the message: it or the content was changed.
  F18  Whether a signature is right is not known. Verify it over what `cover`
       writes: `cms-canon help cover` shows how. A message without signers has
       no F18, and nobody signed it.
  F19  The status of a response grants a token and there is none, or it grants
       none and there is one.

Exit status:
  0  there is no finding but F18
  1  there are other findings
  2  the words were not understood
  3  the message is refused: `cms-canon help convert` says why
  4  reading or writing failed
  5  out of memory",
};

pub(crate) const COVER: Help = Help {
    usage: "cms-canon cover --signer N [--content] < MESSAGE > OCTETS",
    about: "Write the octets that a signature of the message covers",
    more: "\
The octets are those that a verifier of the signature digests (RFC 5652,
section 5.4): the signed attributes as they were received, as a SET OF; or the
content, if the signer has no signed attributes. If it has some, a verifier
must also compare the digest of the content with the attribute message-digest:
`check` does it, and this command does not.

The signers of a time-stamp response are those of its token. Conversion may
change the order of the signers. What a countersignature covers, the library
returns.

With --content, all that follows the message is its detached content. It is
used only if the signer has no signed attributes and the message has no content
of its own. If nothing follows the message, the content is empty.

Examples:
  cms-canon cover --signer 0 < message.der > covered
  cat message.der content | cms-canon cover --signer 0 --content > covered
With the public key of the signer, and its signature in the file `signature`:
  openssl dgst -sha256 -verify public.pem -signature signature covered

A refusal is one that `cms-canon help convert` explains, or one of these:
  refused: no signed data   a request, or a response without a token
  refused: no such signer   no signer has this number
  refused: no content       no signed attributes, and no content

The exit statuses are those of `cms-canon convert`.",
};

pub(crate) const SAME: Help = Help {
    usage: "cat FIRST SECOND | cms-canon same",
    about: "Say whether two messages are the same",
    more: "\
The input is two messages, one right after the other, each in binary and of at
most 268,435,456 octets (256 MiB), with nothing after them. The line `same` or
`different` is written. The messages are the same if and only if they have the
same DER: they may differ in how lengths, segments, default values, booleans
and named bits are encoded, and in the order of the members of sets.

Example:
  cat first.der second.der | cms-canon same

A refusal is one that `cms-canon help convert` explains. Its line says which
message is refused, and how many octets of that message were read:
  first: refused E6 Overrun at 4
  second: refused E1 Truncated at 0
The last line says that nothing follows the first message.

Exit status:
  0  the messages are the same
  1  they are different
  2  the words were not understood
  3  a message is refused
  4  reading or writing failed
  5  out of memory",
};
