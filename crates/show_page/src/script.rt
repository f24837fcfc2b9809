//! The first part of the page's script: it reads the five texts and works out what they say, and touches no element.
//!
//! Numbers stay exact up to 2^64 - 1. Operations are numbered session by session, and arrays hold what is known of each number.

/// The first part of the script: ASCII, with nothing that ends a script element.
pub const SCRIPT: &str = r#"(() => {
'use strict';

// ---- Reading. JSON.parse rounds whole numbers from 2^53: those of 16 digits and more become objects that hold their digits.
const TOKEN = /"(?:[^"\\]+|\\.)*"|-?\d+(?:\.\d+)?(?:[eE][-+]?\d+)?/gs;
const keepDigits = token => /^-?\d{16,}$/.test(token) ? '{"digits":"' + token + '"}' : token;
const readJson = text => JSON.parse(/\d{16}/.test(text) ? text.replace(TOKEN, keepDigits) : text);
const scalar = token => typeof token === 'object' && token !== null ? token.digits : token;

// The words of the objects: what a session does, with an argument (a) or without, and whether something is returned (r).
const WORDS = {w: 'a', r: 'r', inc: '', get: 'r', add: 'a', rem: 'a', has: 'ar', push: 'a', pop: 'r'};
const WORD_LIST = Object.keys(WORDS), KEYED = ['memory', 'counters', 'sets', 'queues'];
const NONE = -1, UNKNOWN = -2;

// Each scalar once, by the number of its first place.
class Table {
  constructor() { this.numbers = new Map(); this.tokens = []; }
  number(token) {
    const key = scalar(token), known = this.numbers.get(key);
    if (known !== undefined) return known;
    this.numbers.set(key, this.tokens.length);
    return this.tokens.push(key) - 1;
  }
}

// The columns of a history. `answer` is NONE where nothing is returned, UNKNOWN where what is returned is not known.
function readHistory(text) {
  const [object, sessions, start = []] = readJson(text), count = sessions.reduce((sum, session) => sum + session.length, 0);
  const column = () => new Int32Array(count).fill(NONE);
  const run = {object, count, sessions: sessions.length, isMemory: object === 'memory', isKeyed: KEYED.includes(object),
    base: new Int32Array(sessions.length + 1), session: column(), word: new Uint8Array(count), key: column(), argument: column(),
    answer: column(), keys: new Table(), values: new Table(), start: new Map(),
    notes: new Map()};
  let op = 0;
  sessions.forEach((session, s) => {
    for (const parts of session) readOperation(run, parts, s, op++);
    run.base[s + 1] = op;
  });
  for (const [key, value] of start) run.start.set(run.keys.number(key), run.values.number(value));
  run.zero = run.values.number(0);
  return findSources(run);
}
function readOperation(run, parts, session, op) {
  const has = WORDS[parts[0]];
  let at = 1;
  run.session[op] = session;
  run.word[op] = WORD_LIST.indexOf(parts[0]);
  if (run.isKeyed) run.key[op] = run.keys.number(parts[at++]);
  if (has.includes('a')) run.argument[op] = run.values.number(parts[at++]);
  if (parts[at] === '?') run.answer[op] = UNKNOWN;
  else if (has.includes('r')) run.answer[op] = run.values.number(parts[at]);
}

// Of a memory: the write that each read reads from, and the values that several writes, or a write and the start, have in common.
const wordOf = (run, op) => WORD_LIST[run.word[op]];
const isWrite = (run, op) => run.word[op] === 0, isRead = (run, op) => run.word[op] === 1;
const initialOf = (run, key) => run.start.get(key) ?? run.zero;
const valueOf = (run, op) => isWrite(run, op) ? run.argument[op] : run.answer[op];
function findSources(run) {
  const many = run.values.tokens.length, writer = new Map(), again = new Map();
  run.source = new Int32Array(run.count).fill(NONE);
  run.repeated = [];
  if (!run.isMemory) return run;
  const slot = op => run.key[op] * many + valueOf(run, op);
  for (let op = 0; op < run.count; op++) {
    if (!isWrite(run, op)) continue;
    const first = writer.get(slot(op)), isInitial = initialOf(run, run.key[op]) === run.argument[op];
    if (first === undefined) writer.set(slot(op), op);
    if (first !== undefined || isInitial) again.set(slot(op), [...(again.get(slot(op)) || (first === undefined ? [] : [first])), op]);
  }
  for (let op = 0; op < run.count; op++) {
    if (isRead(run, op) && run.answer[op] >= 0 && !again.has(slot(op))) run.source[op] = writer.get(slot(op)) ?? NONE;
  }
  run.repeated = [...again.values()];
  return run;
}
const opAt = (run, [session, index]) => run.base[session] + index;
const indexOf = (run, op) => op - run.base[run.session[op]];
const isUnanswered = (run, op) => run.answer[op] === UNKNOWN;

// Where an operation is: its session and its index in it, or in a log the line on which its call begins. A lost write that was read is
// three operations of one line, which `explain` names alike. Of a call whose end has a note, the text has the line of the end too.
const numberOf = (run, op) => run.session[op] + '.' + indexOf(run, op);
function readLines(run, lines, names, notes) {
  if (!lines) return run;
  const pairs = lines.flat().map(line => Array.isArray(line) ? line : [line, NONE]);
  const column = at => Int32Array.from(pairs, pair => pair[at]);
  return {...run, lines: column(0), ends: column(1), clients: names[0].length, notes};
}
function placeOf(run, op) {
  if (!run.lines) return numberOf(run, op);
  const isFork = run.session[op] >= run.clients, isCall = !isFork && run.keys.tokens[run.key[op]] % 2 === 1;
  return 'line ' + run.lines[op] + (isCall ? ' (call)' : isFork && !indexOf(run, op) ? ' (later)' : '');
}

// The notes of a log by their lines, each as its JSON text: no number of it is rounded, and no part of it moves. In the list of pairs of a
// line and a note, what is within a pair is two lists deep.
const NOTE_MARK = /"(?:[^"\\]+|\\.)*"|[[\]{},]/gs;
function readNotes(text) {
  const notes = new Map();
  let depth = 0, begin = 0, line = NONE;
  for (const {0: mark, index} of text.matchAll(NOTE_MARK)) {
    const isOpening = mark === '[' || mark === '{', isClosing = mark === ']' || mark === '}';
    if (isClosing && depth === 2) notes.set(line, text.slice(begin, index));
    if (mark === ',' && depth === 2) line = Number(text.slice(begin, index));
    depth += isOpening - isClosing;
    if (depth === 2 && (isOpening || mark === ',')) begin = index + 1;
  }
  return notes;
}

// ---- Names. What cannot be seen, and what could turn a line around, is shown as an escape; what is long is cut.
const UNSEEN = /[\p{C}\p{Zl}\p{Zp}\p{Default_Ignorable_Code_Point}]|(?! )\p{Zs}/gu, LONGEST = 200;
const escapeOf = text => text.split('').map(unit => '\\u' + unit.charCodeAt(0).toString(16).padStart(4, '0')).join('');
const visible = text => /^[ -~]*$/.test(text) ? text : text.replace(UNSEEN, escapeOf);
const LETTERS = {b: '\\u0008', f: '\\u000c', n: '\\u000a', r: '\\u000d', t: '\\u0009'};
const spelled = text => text.replace(/\\(.)/g, (escape, letter) => LETTERS[letter] || escape);
const number = n => n.toLocaleString('en'), plural = (n, one, more) => number(n) + ' ' + (n === 1 ? one : more || one + 's');
function jsonShown(token) {
  if (typeof token !== 'string') return String(scalar(token));
  const text = visible(spelled(JSON.stringify(token.length > LONGEST ? token.slice(0, LONGEST).replace(/[\ud800-\udbff]$/, '') : token)));
  if (token.length <= LONGEST && text.length <= LONGEST + 2) return text;
  return shortened(text.slice(0, -1)) + '\u2026" (' + plural(token.length, 'character') + ')';
}
function shortened(text) {   // to what is shown at most, and through no escape
  let short = '';
  for (const [unit] of text.matchAll(/\\u[0-9a-f]{4}|\\.|./gsu)) {
    if (short.length + unit.length > LONGEST) break;
    short += unit;
  }
  return short;
}
// A note as it stands in the log. In the page each < of a text is an escape, which is undone; an escape of a backslash is no such one.
const asWritten = json => json.replace(/\\(\\|u003c)/g, (escape, what) => what === '\\' ? escape : '<');
function noteShown(json) {
  const text = visible(asWritten(json));
  return text.length <= LONGEST ? text : shortened(text) + '\u2026';
}
const PLAIN = /^(?!true$|false$|null$)[A-Za-z_][\w.:\/@+-]*$/;
const nameShown = (token, noun) => typeof token !== 'string' ? noun + ' ' + scalar(token) :
  PLAIN.test(token) && token.length <= LONGEST ? token : jsonShown(token);
function cut(text, length) {   // in its middle, and through no pair of surrogates
  if (text.length <= length) return text;
  const begin = text.slice(0, Math.max(1, Math.ceil(length * .65) - 1)), end = text.slice(text.length - Math.floor(length * .35));
  return begin.replace(/[\ud800-\udbff]$/, '') + '\u2026' + end.replace(/^[\udc00-\udfff]/, '');
}

// The names of sessions, keys and values. In the history of a log a key x is the variable 2x, and a value v is 2v + 1; an odd variable is
// the mark of a lost write or delete, which has a session of its own after those of the clients.
function nameAll(run, names) {
  const [clients, keys, values] = names || [[], [], []], isLog = names !== null, cache = new Map();
  const noun = isLog ? 'key' : run.isMemory ? 'variable' : 'key', variable = key => run.keys.tokens[key];
  const isMark = key => isLog && key >= 0 && variable(key) % 2 === 1;
  const keyName = key => isLog ? nameShown(keys[variable(key) / 2], noun) : noun + ' ' + variable(key);
  const valueName = value => {
    const token = run.values.tokens[value];
    if (!isLog) return String(token === null ? 'nothing' : token);
    return typeof token !== 'number' || token % 2 === 0 ? 'nothing' : jsonShown(values[(token - 1) / 2]);
  };
  const once = (prefix, name) => at => {
    const known = cache.get(prefix + at);
    if (known !== undefined) return known;
    cache.set(prefix + at, name(at));
    return cache.get(prefix + at);
  };
  const log = {isLog, clients: isLog ? clients.length : run.sessions, isMark, ...lostWrites(run, isLog, clients.length, isMark)};
  const clientName = s => isLog ? nameShown(clients[s], 'client') : 'session ' + s;
  log.session = once('s', s => s < log.clients ? clientName(s) : log.ownerName(s, clientName));
  log.isNamed = s => isLog && typeof clients[s] === 'string';
  log.key = once('k', keyName);
  log.value = once('v', valueName);
  log.isNothing = value => isLog && value >= 0 && run.values.tokens[value] % 2 === 0;
  return log;
}
// The lost writes and deletes of a log that were seen: the call in its client's session, and the session in which it takes effect.
function lostWrites(run, isLog, clients, isMark) {
  const calls = new Map(), forks = new Map(), many = new Map(), numbers = new Map();
  for (let op = 0; isLog && op < run.count; op++) {
    if (!isMark(run.key[op])) continue;
    if (run.session[op] < clients) calls.set(run.key[op], op);
    else forks.set(run.key[op], op);
  }
  for (const call of calls.values()) {
    const owner = run.session[call];
    many.set(owner, (many.get(owner) || 0) + 1);
    numbers.set(call, many.get(owner));
  }
  const callOf = fork => calls.get(run.key[run.base[run.session[fork]]]), effectOf = call => forks.get(run.key[call]) + 1;
  const ownerName = (s, clientName) => {
    const call = callOf(run.base[s]), owner = call === undefined ? NONE : run.session[call];
    const noun = run.values.tokens[run.argument[run.base[s] + 1]] % 2 === 0 ? 'delete' : 'write';
    return owner < 0 ? 'session ' + s : clientName(owner) + '\u2019s lost ' + noun + (many.get(owner) > 1 ? ' ' + numbers.get(call) : '');
  };
  return {callOf, effectOf, ownerName, lost: calls.size};
}

// ---- Operations in words. A name is {name: text}, to be set apart from the words around it.
const name = text => ({name: text});
const plainText = parts => parts.flat(9).filter(part => part || part === 0).map(part => part.name ?? part).join('');
const NOT_KNOWN = ', and its return is not known';
function memoryWords(run, names, op) {
  const key = name(names.key(run.key[op])), value = valueOf(run, op), tail = isUnanswered(run, op) ? NOT_KNOWN : '';
  if (isWrite(run, op)) return names.isNothing(value) ? ['deletes ', key, tail] : ['writes ', name(names.value(value)), ' to ', key, tail];
  if (value < 0) return ['reads ', key, tail];
  return names.isNothing(value) ? ['finds nothing at ', key] : ['reads ', name(names.value(value)), ' from ', key];
}
const lostNoun = (run, names, effect) => names.isNothing(run.argument[effect]) ? 'delete' : 'write';
const writtenWords = (run, names, op) =>
  [names.isNothing(run.argument[op]) ? '' : [name(names.value(run.argument[op])), ' to '], name(names.key(run.key[op]))];
function callWords(run, names, effect) {
  return ['calls a ', lostNoun(run, names, effect), ' of ', writtenWords(run, names, effect), ' and gets no answer'];
}
function lostWords(run, names, op) {   // of a lost write or delete: its call, what it waits for, and its effect
  if (run.session[op] < names.clients) return callWords(run, names, names.effectOf(op));
  return isRead(run, op) ? ['comes after all that its client had called before it'] : ['takes effect: ', writtenWords(run, names, op)];
}
// The notes of a call, each with its line: those of its begin and of its end. The later operations of a lost call have none.
const notedLines = (run, op) => !run.notes.size || run.session[op] >= run.clients ? [] :
  [run.lines[op], run.ends[op]].filter(line => run.notes.has(line));
function noteWords(run, op) {
  const shown = line => [`line ${line}: `, name(noteShown(run.notes.get(line)))];
  const parts = notedLines(run, op).map((line, at) => [at ? '; of ' : ' [note of ', shown(line)]);
  return parts.length ? [parts, ']'] : '';
}
function operationLine(run, names, op) {   // with its client, in the words of `explain`
  const client = op => name(names.session(run.session[op])), session = run.session[op];
  if (session < names.clients) return [names.isLog ? [': ', client(op)] : '', ' ', operationWords(run, names, op), noteWords(run, op)];
  const owner = client(names.callOf(op)), lost = ': the lost ' + lostNoun(run, names, run.base[session] + 1) + ' of ';
  return isRead(run, op) ? [lost, owner, ' comes after all that ', owner, ' had called before it'] :
    [lost, writtenWords(run, names, op), ' by ', owner, ' takes effect'];
}
const OTHER_WORDS = {w: ['writes ', 'a'], r: ['reads', ' ', 'v'], inc: ['increments'], get: ['gets ', 'v'], add: ['adds ', 'a'],
  rem: ['removes ', 'a'], push: ['pushes ', 'a'], pop: ['pops', ' ', 'v']};
const BEFORE_KEY = {inc: ' ', get: ' from '};
function objectWords(run, names, op) {
  const word = wordOf(run, op), value = run.answer[op], argument = run.argument[op] >= 0 ? name(names.value(run.argument[op])) : '';
  const isKnown = !isUnanswered(run, op), answer = value >= 0 ? name(names.value(value)) : '';
  const key = run.isKeyed ? [!isKnown && word === 'get' ? ' of ' : BEFORE_KEY[word] || ' at ', name(names.key(run.key[op]))] : '';
  const found = word === 'has' && (!isKnown ? 'looks for ' : run.values.tokens[value] ? 'finds ' : 'does not find ');
  if (found) return [found, argument, key, isKnown ? '' : NOT_KNOWN];
  const filled = {a: argument, v: answer, ' ': answer && ' '};
  const words = word === 'get' && !isKnown ? ['gets the count'] : OTHER_WORDS[word].map(part => filled[part] ?? part);
  return [words, key, isKnown ? '' : NOT_KNOWN];
}
const isOfLostWrite = (run, names, op) => run.session[op] >= names.clients || names.isMark(run.key[op]);
const operationWords = (run, names, op) => isOfLostWrite(run, names, op) ? lostWords(run, names, op) :
  run.isMemory ? memoryWords(run, names, op) : objectWords(run, names, op);

// An operation in pieces, for a box or a row: what is done, at which key, and with which value.
const DONE = {w: 'writes', r: 'reads', inc: 'increments', get: 'gets', add: 'adds', rem: 'removes', has: 'looks for', push: 'pushes',
  pop: 'pops'};
function operationPieces(run, names, op) {
  const lost = isOfLostWrite(run, names, op), isCall = lost && run.session[op] < names.clients, from = isCall ? names.effectOf(op) : op;
  if (lost && !isCall && isRead(run, op)) return {verb: 'comes after the call', key: '', value: ''};
  const value = run.isMemory ? valueOf(run, from) : run.argument[op] >= 0 ? run.argument[op] : run.answer[op], word = wordOf(run, op);
  const isDelete = run.isMemory && isWrite(run, from) && names.isNothing(value), isFound = word === 'has' && run.answer[op] >= 0;
  const verb = isCall ? 'calls a ' + (isDelete ? 'delete of' : 'write of') : isDelete ? 'deletes' : lost ? 'late write of' :
    isFound ? run.values.tokens[run.answer[op]] ? 'finds' : 'does not find' : DONE[word];
  return {verb, isRead: WORDS[word].includes('r'), isOpen: isCall || isUnanswered(run, op) && !lost,
    key: run.isKeyed ? names.key(run.key[from]) : '', value: isDelete || value < 0 ? '' : names.value(value)};
}

// ---- The causal order: session order and reads. A way from one operation to another takes as few reads as possible, and of such ways one
// that begins by a read, if there is one. The search begins at its end: for each session, `front` is one more than the last operation that
// is known to reach the end.
function wayBetween(run, from, to) {
  const front = Int32Array.from(run.base), queue = [{top: to, read: NONE, next: null, reads: 0}];
  const atOnce = reads => queue.find(stretch => stretch.top === from && stretch.reads === reads);
  for (let at = 0; at < queue.length; at++) {
    const stretch = queue[at], s = run.session[stretch.top];
    if (stretch.top < front[s]) continue;
    if (run.session[from] === s && from <= stretch.top) return followed(from, atOnce(stretch.reads) || stretch);
    for (let op = stretch.top; op >= front[s]; op--) {
      const source = run.source[op];
      if (source >= 0 && source >= front[run.session[source]]) queue.push({top: source, read: op, next: stretch, reads: stretch.reads + 1});
    }
    front[s] = stretch.top + 1;
  }
  return null;
}
function followed(from, stretch) {
  const way = [from];
  for (let part = stretch; part; part = part.next) {
    if (way[way.length - 1] !== part.top) way.push(part.top);
    if (part.next) way.push(part.read);
  }
  return way;
}

// ---- What the verdicts mean
const CRITERIA = {cc: ['Causal consistency', 'Whoever sees a write has seen all that it depends on.'],
  cm: ['Causal memory', 'The reads of each session fit one order of the writes.'],
  ccv: ['Causal convergence', 'All replicas order concurrent writes alike.']};
const ANSWERS = {yes: ['holds', 'hold', '\u2713'], no: ['fails', 'fail', '\u2717'], unknown: ['is undecided', 'are undecided', '?']};

// ---- Faults: of a pattern of `explain --json`, or of a read that `explain --all` lists.
const KINDS = {
  ThinAirRead: ['value nobody wrote', 'values nobody wrote', 'A read returned a value that nobody wrote.'],
  WriteCOInitRead: ['stale read (initial value)', 'stale reads (initial value)',
    'A stale read: a write was lost, or was not seen yet, and a read after it found the initial value.'],
  WriteCORead: ['stale read', 'stale reads', 'A stale read: it returned a value that its client knew to be overwritten.'],
  CyclicCO: ['read from the future', 'reads from the future', 'A read from the future: it returned what was written only after it.'],
  CyclicCF: ['group of writes without an agreed order', 'groups of writes without an agreed order',
    'Replicas never agree on an order of concurrent writes.'],
  WriteHBInitRead: ['session whose reads fit no single order', 'sessions whose reads fit no single order',
    'The reads of one session fit no single order, and one of them returned the initial value.'],
  CyclicHB: ['session whose reads fit no single order', 'sessions whose reads fit no single order',
    'The reads of one session fit no single order.'],
};
const TITLES = {CyclicCF: 'writes without an agreed order', WriteHBInitRead: 'reads without a single order',
  CyclicHB: 'reads without a single order'};
const titleOf = kind => TITLES[kind] || KINDS[kind][0];
function faultOf(run, [kind, ...shown]) {
  const op = pair => opAt(run, pair), ways = shown.map(part => Array.isArray(part[0]) ? part : null);
  const fault = {kind, read: NONE, missed: NONE, source: NONE, upTo: NONE, session: NONE, shown, listed: false};
  fault.cycle = new Set(cycleOf(run, fault));
  const first = ways[0] && ways[0].every(pair => typeof pair[0] === 'number') ? ways[0].map(op) : [];
  if (kind === 'ThinAirRead') fault.read = op(shown[0]);
  else if (kind === 'WriteCOInitRead') Object.assign(fault, {missed: first[0], read: first[first.length - 1], ways: [first]});
  else if (kind === 'WriteCORead') {
    const second = shown[1].map(op);
    Object.assign(fault, {source: first[0], missed: second[0], read: second[second.length - 1], ways: [first, second]});
  } else if (kind === 'WriteHBInitRead' || kind === 'CyclicHB') {
    fault.upTo = op(shown[0]);
    const [begin, end] = stepsOf(run, fault).ends;
    Object.assign(fault, kind === 'CyclicHB' ? {twice: begin} : {missed: begin, read: end});
  }
  fault.session = fault.read >= 0 ? run.session[fault.read] : fault.upTo >= 0 ? run.session[fault.upTo] : NONE;
  return fault;
}
// The operations that a cycle puts before themselves, as `explain --svg` marks them.
function cycleOf(run, {kind, shown}) {
  const op = pair => opAt(run, pair);
  if (kind === 'CyclicCO') return shown[0].map(op);
  if (kind === 'CyclicCF') return shown[0].flatMap(([word, first, second]) => [op(word === 'co' ? first : first[0]), op(second)]);
  return kind === 'CyclicHB' ? joinedEnds(run, shown[1]) : [];
}
function derivedPairs(run, lines) {   // what each line of a derivation puts before what
  const pairs = [], op = pair => opAt(run, pair);
  for (const [word, first, second] of lines) {
    pairs.push(word === 'co' ? [op(first[0]), op(first[first.length - 1])] :
      word === 'tr' ? [pairs[first][0], pairs[second][1]] : [pairs[first][0], run.source[op(second)]]);
  }
  return pairs;
}
function joinedEnds(run, lines) {   // of the last line, or of the lines that it joins
  const pairs = derivedPairs(run, lines), joined = new Set([lines.length - 1]), ends = [];
  for (let at = lines.length - 1; at >= 0; at--) {
    const [word, first, second] = lines[at];
    if (!joined.has(at)) continue;
    if (word === 'tr') joined.add(first).add(second); else ends.push(...pairs[at]);
  }
  return ends;
}
const isWrong = (fault, op) => op === fault.read || fault.cycle.has(op);
function listedFault(run, [kind, ...places]) {
  const [read, ...others] = places.map(pair => opAt(run, pair)), missed = others.length ? others[others.length - 1] : NONE;
  const source = others.length > 1 ? others[0] : NONE;
  return {kind, read, missed, source, upTo: NONE, session: run.session[read], shown: null, listed: true, cycle: new Set()};
}

// The faults that the page shows: those of the list, and in front those of the verdicts that it lacks. A verdict's own pattern is drawn
// where both have the same read.
function gatherFaults(run, report) {
  const [reasons, tally] = report, listed = (tally ? tally[2] : []).map(entry => listedFault(run, entry)), own = [], seen = new Map();
  const byRead = new Map(listed.map((fault, at) => [fault.kind + ' ' + fault.read, at]));
  const verdicts = reasons.map(([criterion, answer, shown]) => {
    const isPattern = answer === 'no' && Array.isArray(shown), text = JSON.stringify([answer, shown]), twin = seen.get(text);
    const verdict = {criterion, answer, kind: answer !== 'no' ? null : isPattern ? shown[0] : shown, fault: null, twin: twin || null,
      stopped: answer === 'unknown' && shown ? opAt(run, shown) : NONE};
    if (twin) verdict.fault = twin.fault;
    else if (isPattern) {
      const fault = faultOf(run, shown), at = byRead.get(fault.kind + ' ' + fault.read);
      if (at === undefined) own.push(fault);
      else listed[at] = {...fault, listed: true};
      verdict.fault = fault.read >= 0 && at !== undefined ? listed[at] : fault;
    }
    if (!twin && answer !== 'yes') seen.set(text, verdict);
    return verdict;
  });
  for (const verdict of verdicts) {
    if (verdict.kind && !verdict.fault) verdict.fault = listed.find(({kind}) => kind === verdict.kind) || null;
  }
  const faults = [...own, ...listed].map((fault, number) => Object.assign(fault, {number}));
  return {verdicts, faults, counts: countFaults(own, tally), listed: listed.length};
}
function countFaults(own, tally) {
  const counts = new Map();
  for (const [kind, many] of tally ? tally[0] : []) if (many) counts.set(kind, many);
  const isCounted = kind => tally && tally[0].some(([other]) => other === kind);
  for (const {kind} of own) if (!isCounted(kind)) counts.set(kind, (counts.get(kind) || 0) + 1);
  return counts;
}

// ---- Steps: how the operations of a fault follow from each other, in the order and the terms of `explain`. The first 20 and the last 20
// are kept.
const AT_AN_END = 20;
const between = (run, from, to) => ({how: run.session[from] === run.session[to] && from < to ? 'next' : 'reads', from, to});
class Steps {
  constructor(run) { this.run = run; this.all = []; this.known = new Set(); this.skipped = 0; }
  add(step) {
    const text = [step.how, step.from, step.to, step.why].join(' ');
    if (this.known.has(text)) return;
    this.known.add(text);
    this.all.push(step);
  }
  follow(way) { for (let at = 1; at < way.length; at++) this.add(between(this.run, way[at - 1], way[at])); }
  lead(way) {
    this.follow(way);
    if (way.length > 2) this.add({how: 'leads', from: way[0], to: way[way.length - 1]});
  }
  kept() {
    const rest = Math.max(0, this.all.length - 2 * AT_AN_END);
    return {first: this.all.slice(0, AT_AN_END), last: this.all.slice(AT_AN_END + rest), leftOut: rest + this.skipped};
  }
}
function stepsOf(run, fault) {
  const steps = new Steps(run), way = pairs => pairs.map(pair => opAt(run, pair));
  let ends = null;
  if (fault.kind === 'CyclicCF') ends = addLinks(run, steps, fault.shown[0], way);
  else if (fault.upTo >= 0) ends = addDerivation(run, steps, fault, way);
  else if (fault.kind === 'CyclicCO') { steps.follow(way(fault.shown[0])); ends = [opAt(run, fault.shown[0][0]), NONE]; }
  else ends = addRead(run, steps, fault);
  return {...steps.kept(), ends};
}
const waysOf = (run, {ways, source, missed, read}) => ways ||
  [source >= 0 && wayBetween(run, source, missed), missed >= 0 && wayBetween(run, missed, read)].filter(Boolean);
function addRead(run, steps, fault) {   // a read that missed a write, or whose value nobody wrote
  for (const way of waysOf(run, fault)) steps.follow(way);
  if (fault.source >= 0) steps.add({how: 'reads', from: fault.source, to: fault.read});
  return [fault.missed, fault.read];
}
function addLinks(run, steps, links, way) {
  for (const [word, first, second] of links) {
    if (word === 'co') { steps.follow(way([first, second])); continue; }
    const path = way(first), other = opAt(run, second), read = path[path.length - 1];
    steps.lead(path);
    steps.add({how: 'reads', from: other, to: read});
    steps.add({how: 'must', from: path[0], to: other, why: read, yields: true});
  }
  const [word, first] = links[0];
  return [opAt(run, word === 'co' ? first : first[0]), NONE];
}
function addDerivation(run, steps, fault, way) {
  const lines = fault.shown[1], pairs = derivedPairs(run, lines);
  lines.forEach(([word, first, second], at) => {
    const isKept = at < AT_AN_END || at >= lines.length - AT_AN_END, pair = pairs[at];
    if (!isKept) { steps.skipped++; return; }
    if (word === 'co') {
      steps.lead(way(first));
      if (run.session[opAt(run, second[0])] !== run.session[fault.upTo]) steps.lead(way(second));
    } else if (word === 'tr') steps.add({how: 'joins', from: pair[0], to: pair[1], why: pairs[first][1]});
    else {
      steps.add({how: 'reads', from: pair[1], to: opAt(run, second)});
      steps.add({how: 'must', from: pair[0], to: pair[1], why: opAt(run, second)});
    }
  });
  return pairs[pairs.length - 1];
}
function stepWords(run, {how, from, to, why, yields}) {
  const a = placeOf(run, from), b = placeOf(run, to), c = why === undefined ? '' : placeOf(run, why);
  if (how === 'next') return `${b} follows ${a} in its session`;
  if (how === 'reads') return `${b} reads from ${a}`;
  if (how === 'leads') return `so ${a} comes before ${b}`;
  if (how === 'joins') return `${a} comes before ${b}, since it comes before ${c}, and that before ${b}`;
  return yields ? `${b} overwrites ${a} in arbitration, since ${c} reads from ${b} and ${a} comes before ${c}` :
    `${a} comes before ${b}, since ${c} reads from ${b} and ${a} comes before ${c}`;
}
const opsOf = (fault, {first, last, ends}) => {
  const ops = new Set([...first, ...last].flatMap(({from, to, why}) => why === undefined ? [from, to] : [from, to, why]));
  for (const op of [...(ends || []), fault.read]) if (op >= 0) ops.add(op);
  return [...ops].sort((one, other) => one - other);
};

// The lines of a fault, in the words of `explain`: its operations, its steps, and what is wrong.
function wordLines(run, names, fault, steps) {
  const lines = opsOf(fault, steps).map(op => [placeOf(run, op), operationLine(run, names, op)]);
  for (const step of steps.first) lines.push([stepWords(run, step)]);
  if (steps.leftOut) lines.push([`(${steps.leftOut} more steps are left out here)`]);
  for (const step of steps.last) lines.push([stepWords(run, step)]);
  lines.push(wrongWords(run, names, fault, steps.ends));
  const breaks = guaranteeOf(run, fault);
  if (breaks) lines.push([`This breaks ${breaks}.`]);
  return lines;
}
function wrongWords(run, names, fault, [begin, end]) {
  const place = placeOf(run, begin >= 0 ? begin : fault.read), read = end >= 0 && isRead(run, end) ? end : fault.read;
  if (fault.kind === 'CyclicCO') return [`So ${place} comes before itself in the causal order.`];
  if (fault.kind === 'CyclicCF') return [`So ${place} comes before itself in the causal order and the arbitration together: ` +
    'no order of all writes agrees with what was read.'];
  const session = fault.session >= 0 ? [names.isNamed(fault.session) ? 'client ' : '', name(names.session(fault.session))] : '';
  if (fault.kind === 'CyclicHB') return ['What ', session, ` has read up to ${placeOf(run, fault.upTo)} puts ${place} before itself.`];
  const isNothing = names.isNothing(run.answer[read]), key = name(names.key(run.key[read])), value = name(names.value(run.answer[read]));
  const initial = name(names.value(initialOf(run, run.key[read]))), got = isNothing ? ['found nothing at ', key] : ['read ', value];
  const head = [placeOf(run, read), ' '], start = [...got, isNothing ? '' : [', the initial value of ', key]];
  if (fault.kind === 'WriteCORead') return [head, 'read ', value, `, which ${place} had overwritten in its past.`];
  if (fault.kind === 'WriteCOInitRead') return [head, start, `, which ${place} had overwritten in its past.`];
  if (fault.kind === 'WriteHBInitRead') return [head, start, ', but what ', session,
    ` has read up to ${placeOf(run, fault.upTo)} puts ${place}, which writes the variable, before it.`];
  if (isNothing) return [head, got, ', though nobody deletes it, and its initial value is ', initial, '.'];
  const isEmpty = names.isNothing(initialOf(run, run.key[read]));
  const held = isEmpty ? ', and it holds nothing at the start.' : [', and its initial value is ', initial, '.'];
  return [head, got, ', which nobody wrote to ', key, held];
}

// ---- The sentence of a fault, for whoever has not read the definitions.
const readBefore = (run, {read, missed}) => {   // an earlier read of the session that got the missed write
  for (let op = read - 1; missed >= 0 && op >= run.base[run.session[read]]; op--) if (run.source[op] === missed) return op;
  return NONE;
};
// What a stale read breaks, by the links of the way from the missed write: stretches of one client, and reads of what others wrote.
const GUARANTEES = ['read your writes', 'monotonic reads', 'monotonic writes', 'writes follow reads', 'causal order'];
const isOfLost = (run, op) => run.lines && run.session[op] >= run.clients;
const goesOn = (run, from, to) => run.session[from] === run.session[to] ? from < to : isOfLost(run, to) && !indexOf(run, to);
function guaranteeOf(run, fault) {
  const way = /^WriteCO/.test(fault.kind) ? waysOf(run, fault).slice(-1)[0] : null;
  if (!way) return null;
  const stays = way.slice(1).map((to, at) => goesOn(run, way[at], to)), links = stays.filter((stay, at) => !(stay && stays[at - 1]));
  return GUARANTEES[Math.min(links.length, GUARANTEES.length) - 1];
}
const at = (run, op) => ' (' + placeOf(run, op) + ')';
const startsBig = parts => {
  const text = plainText(parts);
  return text.startsWith('session') ? [name('S' + text.slice(1))] : parts;
};
const CIRCLES = {
  CyclicCF: 'No order of all writes agrees with what was read: some have to come before each other, in a circle.',
  CyclicCO: 'A read returned what was written only after it: some operations come before each other, in a circle.',
};
function faultSentence(run, names, fault) {
  if (CIRCLES[fault.kind]) return [CIRCLES[fault.kind]];
  return fault.upTo >= 0 ? orderSentence(run, names, fault) : readSentence(run, names, fault);
}
function orderSentence(run, names, {kind, session, upTo, read, missed, twice}) {
  const head = ['What ', name(names.session(session)), ' read, up to ' + placeOf(run, upTo), ', fits no single order of the writes: '];
  if (kind === 'CyclicHB') return [head, 'the write ' + placeOf(run, twice), ' would have to come before itself.'];
  const key = name(names.key(run.key[read])), value = run.answer[read];
  const got = names.isNothing(value) ? ['it found nothing at ', key] : ['it got the initial value ', name(names.value(value)), ' of ', key];
  return [head, got, at(run, read), ', though ', placeOf(run, missed), ', a write of it, must come before.'];
}
const OLD = {WriteCORead: 'the old ', WriteCOInitRead: 'the initial value ', ThinAirRead: ''};
const missedWords = (names, value, which) =>
  names.isNothing(value) ? [which, 'delete'] : [which, 'write of ', name(names.value(value))];
function readSentence(run, names, fault) {
  const {read, missed, kind, session} = fault, value = run.answer[read], isNothing = names.isNothing(value);
  const gotten = isNothing ? ' and found nothing' : [' and got ', OLD[kind], name(names.value(value))];
  const head = [startsBig([name(names.session(session))]), ' read ', name(names.key(run.key[read])), gotten, at(run, read)];
  if (kind === 'ThinAirRead') return [head, isNothing ? ', though nobody deletes it.' : ', which nobody wrote.'];
  const written = valueOf(run, missed), before = readBefore(run, fault);
  const own = missedWords(names, written, 'its own earlier ');
  if (run.session[missed] === session) return [head, '. It missed ', own, at(run, missed), '.'];
  const why = before >= 0 ? [', which it had already read', at(run, before), '.'] : '. What it had read before depends on that write.';
  const whose = [' by ', name(names.session(run.session[missed])), at(run, missed)];
  return [head, '. It missed ', missedWords(names, written, 'the '), whose, why];
}

// ---- The picture of a fault: a lane for each session in the order in which they first act, and a row for each operation. So no link
// crosses a box: it leaves at a side, runs along its own row, goes up or down in a gutter, and enters the side of the other.
function rowOrder(run, ops, steps) {   // by session order and reads where that is possible, in the order in which the steps name them
  const drawn = new Set(ops), named = [...new Set([...steps.flatMap(step => [step.from, step.to]), ...ops])].filter(op => drawn.has(op));
  const left = new Set(named), order = [];
  const waits = op => steps.some(({how, from, to}) => how === 'reads' && to === op && from !== op && left.has(from));
  const isHead = op => !ops.some(other => other < op && run.session[other] === run.session[op] && left.has(other));
  while (left.size) {
    const heads = named.filter(op => left.has(op) && isHead(op)), next = heads.find(op => !waits(op)) ?? heads[0];
    order.push(next);
    left.delete(next);
  }
  return order;
}
const DRAWN = {reads: 'reads', must: 'must'};
function linksOf(run, fault, steps) {
  const links = [...steps.first, ...steps.last].filter(({how}) => DRAWN[how]).map(({how, from, to}) =>
    ({how: how === 'reads' && to === fault.read && from === fault.source ? 'wrong' : how, from, to}));
  if (fault.source >= 0 && fault.missed >= 0) links.push({how: 'over', from: fault.source, to: fault.missed});
  const isSame = (one, other) => one.how === other.how && one.from === other.from && one.to === other.to;
  return links.filter((link, at) => links.findIndex(other => isSame(link, other)) === at);
}
// The operations in the picture: the ends of its links and those that the fault names, or all where it has none of these. So an operation
// that is only between others of its session is left out.
function drawnOps(fault, steps, links) {
  const kept = new Set([...links.flatMap(({from, to}) => [from, to]), fault.read, fault.missed, fault.upTo]);
  const ops = opsOf(fault, steps), left = ops.filter(op => kept.has(op));
  return left.length ? left : ops;
}
const GAP = 26, TRACK = 9, NARROWEST = 150;
function layOut(run, fault, steps, width) {
  const drawnLinks = linksOf(run, fault, steps), order = rowOrder(run, drawnOps(fault, steps, drawnLinks), [...steps.first, ...steps.last]);
  const lanes = [...new Set(order.map(op => run.session[op]))];
  const nodes = new Map(order.map(op => [op, {op, lane: lanes.indexOf(run.session[op]), before: NONE}]));
  const links = drawnLinks.map(link => ({how: link.how, from: nodes.get(link.from), to: nodes.get(link.to)}));
  links.forEach(link => {
    link.side = link.from.lane < link.to.lane ? -1 : 1;            // the side of the other box at which it enters
    link.out = link.from.lane <= link.to.lane ? 1 : -1;
    link.gutter = link.to.lane + (link.side > 0);
  });
  const ends = new Map();
  for (const node of nodes.values()) {
    node.before = ends.get(node.lane) ?? NONE;
    node.fold = node.before < 0 ? 0 : node.op - node.before - 1;
    ends.set(node.lane, node.op);
  }
  giveTracks(order, links, lanes.length);
  return {order, lanes, nodes, links, ...placeLanes(lanes, links, width), rows: order.length};
}
// The tracks of a gutter: two links share one where their rows do not overlap. Those of one side lie on its own half, the longest next to
// the box.
function giveTracks(order, links, lanes) {
  const row = new Map(order.map((op, at) => [op, at]));
  const span = link => [row.get(link.from.op), row.get(link.to.op)].sort((one, other) => one - other);
  for (let gutter = 0; gutter <= lanes; gutter++) for (const side of [-1, 1]) {
    const tracks = [], here = links.filter(link => link.gutter === gutter && link.side === side);
    const length = link => span(link)[1] - span(link)[0];
    for (const link of here.sort((one, other) => length(other) - length(one))) {
      const [low, high] = span(link), free = tracks.findIndex(taken => taken.every(([from, to]) => to < low || from > high));
      link.track = free < 0 ? tracks.push([]) - 1 : free;
      tracks[link.track].push([low, high]);
    }
  }
}
function placeLanes(lanes, links, width) {
  const isThere = (link, gutter, side) => link.gutter === gutter && link.side === side;
  const many = (gutter, side) => links.reduce((most, link) => isThere(link, gutter, side) ? Math.max(most, link.track + 1) : most, 0);
  const gutters = lanes.concat([0]).map((_, gutter) => {
    const tracks = many(gutter, -1) + many(gutter, 1);
    return {tracks, wide: tracks ? 24 + TRACK * Math.max(1, tracks) : gutter === 0 || gutter === lanes.length ? 4 : 24};
  });
  const used = gutters.reduce((sum, gutter) => sum + gutter.wide, 0), room = (width - used) / lanes.length, isWide = room >= NARROWEST;
  const box = isWide ? Math.min(lanes.length > 2 ? 240 : 280, Math.floor(room)) : 14;
  let x = 0;
  const left = lanes.map((_, lane) => { x += gutters[lane].wide; x += box; return x - box; });
  x += gutters[lanes.length].wide;
  for (const link of links) {
    const {side, gutter, track} = link, edge = side < 0 ? left[gutter] : left[gutter - 1] + box;
    link.x = edge + side * (14 + TRACK * track);
  }
  return {isWide, box, left, across: x};
}
// Gives each box its place and its height, by its number of lines, and each link its ends. It gives the height of all.
const LINE = 18;
function placeRows(plan, top, linesOf) {
  let y = top;
  for (const op of plan.order) {
    const node = plan.nodes.get(op);
    if (node.fold) y += 24;
    node.lines = linesOf(node);
    Object.assign(node, {x: plan.left[node.lane] + plan.box / 2, y, tall: 14 + LINE * node.lines.length});
    y += node.tall + (plan.isWide ? GAP : 16);
  }
  givePorts(plan.links, plan.nodes);
  return y;
}
// Gives each end of a link its height at the side of its box: short ones coming from above first, so that links cross as little as can be.
function givePorts(links, nodes) {
  for (const node of nodes.values()) for (const side of [-1, 1]) {
    const ends = [];
    for (const link of links) {
      const down = link.to.y > link.from.y ? 1 : -1;
      if (link.to === node && link.side === side) ends.push({link, which: 'toY', rank: down > 0 ? -1e6 - link.track : 1e6 + link.track});
      if (link.from === node && link.out === side) {
        const far = Math.abs(link.x - node.x);
        ends.push({link, which: 'fromY', rank: down > 0 ? 1e5 - far : -1e5 + far});
      }
    }
    ends.sort((one, other) => one.rank - other.rank);
    ends.forEach(({link, which}, at) => { link[which] = node.y + node.tall * (at + 1) / (ends.length + 1); });
  }
}
function linkPath({from, to, side, out, x, fromY, toY}, box) {
  const begin = from.x + out * box / 2, end = to.x + side * box / 2, turn = Math.sign(x - begin) || out, back = Math.sign(end - x) || -side;
  const bend = Math.min(6, Math.abs(toY - fromY) / 2) * Math.sign(toY - fromY), round = Math.abs(bend);
  const leave = `M${begin} ${fromY}H${x - turn * round}Q${x} ${fromY} ${x} ${fromY + bend}`;
  return `${leave}V${toY - bend}Q${x} ${toY} ${x + back * round} ${toY}H${end}`;
}
"#;
