// What `--help` says.
pub const TEXT: &[u8] = b"trace [OPTION..] CONFIGURATION RECORD

Makes a node from the configuration and the calls of the record on it, in order, and writes a line for each message that was queued: its
arrival number, the record's line that brought it, origin, destination, SLS, what it is, and what became of it.
Options stand anywhere among the files; behind -- all words are files.

  --link LINK         show only messages that stood in that link's queue at some time
  --from LINE         show only those that the record's lines from that one on brought
  --to LINE           show only those that the lines up to that one brought; all lines are run
  --destination CODE  show only those for that destination
  --circuit CIRCUIT   show only those about that circuit
  --lost              show only those that were dropped, or are held at the end, sent and not acknowledged
  --twice             show only those that may arrive twice
  --changeovers       show no messages, but a sentence for each link that went out
  --picture FILE      write the changeovers into that file as well, as a drawing (SVG) that a browser opens
  --help              show this, and run nothing

Exit status: 0 every line was run; 1 the configuration is refused or a line can't be read; 2 the arguments aren't right, or a file can't be
read or written. docs/FORMATS.md says what is read and written.
";
