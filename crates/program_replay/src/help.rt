// What `--help` says.
pub const TEXT: &[u8] = b"replay [OPTION..] CONFIGURATION RECORD

Makes a node from the configuration and the calls of the record on it, in order, and writes what each answers.
Options stand anywhere among the files; behind -- all words are files.

  --from LINE       show only the answers of the record's lines from that one on
  --to LINE         show only those up to that line, and end the run there unless a summary is asked for
  --only reports    show only drops, pauses and resumes
  --fates           show what became of messages: queued, sent, acknowledged, retired, moved (not with --only)
  --calls           show each call before its answer (not with --only)
  --words           show in words what a reply, a drop's reason or a fault means
  --summary         show at the end how many of what is shown there were
  --pcap FILE       write a capture of what was received and sent, which Wireshark opens (not with --only)
  --link-type TYPE  of that capture: 139 (MTP2 with direction and link; the default) or 141 (MTP3 alone)
  --help            show this, and run nothing

Exit status: 0 every line was run; 1 the configuration is refused or a line can't be read; 2 the arguments aren't right, or a file can't be
read or written. docs/FORMATS.md says what is read and written.
";
