//! What the help on each page says last: the input, an example with its answer, and the statuses.

/// Of the program: how a run is recorded, judged and explained, and where to read on.
pub const PROGRAM: &str = r#"
Write down what the clients of a store call and are answered, an event a line,
while they run. Judge the log, and have a no explained:

  $ cat > run.jsonl <<'END'
  > ["begin","alice",["w","user:5","v1"]]
  > ["end","alice","ok"]
  > ["begin","alice",["r","user:5"]]
  > ["end","alice",null]
  > END
  $ causal_judge judge run.jsonl
  cc no WriteCOInitRead
  cm no WriteCOInitRead
  ccv no WriteCOInitRead
  $ causal_judge explain --html -o run.html run.jsonl

Each line is yes, no with the kind of fault, or unknown, for causal consistency
(cc), causal memory (cm) and causal convergence (ccv). Give each write a new
value: else a line is yes or unknown. 'causal_judge help forms' has the forms of
logs and histories, 'causal_judge help refusals' what a refusal means and the
statuses, and 'causal_judge help explain' what a no means.
"#;

/// Of `help`: nothing.
pub const HELP: &str = "";

/// Of `judge`.
pub const JUDGE: &str = r#"
The input is a history: the name of an object, and for each client the list of
its operations in order, each with what it returned. Here one client posts, a
second reads the post and replies, and a third reads the reply and misses the
post:

  $ echo '["memory",[[["w",0,1]],[["r",0,1],["w",1,2]],[["r",1,2],["r",0,0]]]]' \
      | causal_judge judge
  cc no WriteCOInitRead
  cm no WriteCOInitRead
  ccv no WriteCOInitRead

Or it is a log, with one event in each line: 'causal_judge judge run.jsonl'.

Status: 0 answered, whatever the verdict; 1 the input is refused; 2 wrong words;
3 reading or writing failed; 4 memory ran out. With --expect: 0 each criterion
is met, 5 one is not met, 6 of one nothing is known.
'causal_judge help forms' has the forms of a history and of a log.
"#;

/// Of `check`.
pub const CHECK: &str = r#"
The input is [HISTORY,CERTIFICATE]. A certificate has the name of a criterion, for
each operation how many operations of each session come before it, and an order;
'explain --json --certificates' writes one for each criterion that is met.

  $ echo '[["memory",[[["w",0,1]],[["r",0,1]]]],["cc",[[[1,0]],[[1,1]]],[[[0]],[[0,1]]]]]' \
      | causal_judge check
  cc yes

The answer is 'yes', or 'unknown S.I' with the first operation that the
certificate does not explain: another one may explain it.

Status: 0 answered; 1 the input is refused; 2 wrong words; 3 reading or writing
failed; 4 memory ran out.
"#;

/// Of `explain`.
pub const EXPLAIN: &str = r#"
The input is that of judge. A no is shown by a few operations, each step in
words, and by these operations as a history of their own:

  $ echo '["memory",[[["w",0,1],["r",0,0]]]]' | causal_judge explain
  cc no WriteCOInitRead
    0.0 writes 1 to variable 0
    0.1 reads 0 from variable 0
    0.1 follows 0.0 in its session
    0.1 read 0, the initial value of variable 0, which 0.0 had overwritten in its past.
    This breaks read your writes.
    These operations alone are a no: ["memory",[[["w",0,1],["r",0,0]]]]
  cm no WriteCOInitRead
    as for cc
  ccv no WriteCOInitRead
    as for cc

With --html the answer is one page to open in a browser:

  $ causal_judge explain --html -o run.html run.json

The kinds of a no:

  ThinAirRead      a read returned a value that nobody wrote
  WriteCOInitRead  a stale read: a write was lost, or is not seen yet, and the
                   read found the initial value
  WriteCORead      a stale read: it returned a value that its client knew to be
                   overwritten. For these two, explain says which guarantee
                   breaks: read your writes, monotonic reads, monotonic
                   writes, writes follow reads or causal order.
  CyclicCO         a read from the future: it returned what was written only
                   after it
  CyclicCF         replicas never agree on an order of concurrent writes
  WriteHBInitRead  the reads of one session fit no single order: one returned
                   the initial value
  CyclicHB         the reads of one session fit no single order

Status: 0 answered, whatever the verdict; 1 the input is refused; 2 wrong words;
3 reading or writing failed; 4 memory ran out.
"#;

/// Of `refute`.
pub const REFUTE: &str = r#"
The input is [HISTORY,"CRITERION",PATTERN], with a pattern as 'explain --json'
writes it. The answer is a no where the pattern is in the history, and shows
that the history does not meet the criterion:

  $ echo '[["memory",[[["w",0,1],["r",0,0]]]],"cc",["WriteCOInitRead",[[0,0],[0,1]]]]' \
      | causal_judge refute
  cc no WriteCOInitRead

Status: 0 answered; 1 the input is refused, with 'refused 23' for a pattern that
shows nothing; 2 wrong words; 3 reading or writing failed; 4 memory ran out.
"#;

/// Of `replay`.
pub const REPLAY: &str = r#"
The input is a script: the name of an object, how many sessions and cases there
are, and the steps of sessions, sealers and workers. Each answer is a line:

  $ echo '["memory",1,[["begin",0,["w",0,7]],["start"],["look",0,3],["show",0]]]' \
      | causal_judge replay
  ok 0.0
  ok 0
  none
  seen
  none
  ["memory",[[["w",0,7,"?"]]]]

docs/guide.md has the steps and their answers.

Status: 0 answered; 1 the input is refused, with 'refused 28 I' for the step I;
2 wrong words; 3 reading or writing failed; 4 memory ran out.
"#;

/// Of `drive`.
pub const DRIVE: &str = r#"
STORE is 'causal', a store of memories, counters, sets and queues that delivers
updates in causal order, or 'lamport', a memory whose last writer wins by stamp.
Each session of the input is a client, which makes its calls at a replica of its
own, at the same time as the others. What they were answered is judged:

  $ echo '["memory",[[["w",0,1],["r",0,"?"]]]]' | causal_judge drive causal
  ["memory",[[["w",0,1],["r",0,1]]]]
  cc yes
  cm yes
  ccv yes

Status: 0 answered, whatever the verdict; 1 the input is refused; 2 wrong words;
3 reading or writing failed; 4 memory ran out.
"#;

/// Of `events`.
pub const EVENTS: &str = r#"
The input is a log, with one event in each line. The answer is the history that
the log records, in the form that judge reads, with numbers for keys and values:

  $ printf '%s\n' '["begin","alice",["w","user:5","v1"]]' '["end","alice","ok"]' \
      | causal_judge events
  ["memory",[[["w",0,1]]]]

Status: 0 answered; 1 a line is refused; 2 wrong words; 3 reading or writing
failed; 4 memory ran out.
'causal_judge help forms' has the form of a log.
"#;
