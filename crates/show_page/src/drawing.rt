//! The third part of the page's script: it builds the elements, draws the pictures, and answers clicks and keys.

/// The third part of the script: ASCII, with nothing that ends a script element.
pub const DRAWING: &str = r#"
// ---- Elements are made of text alone: no name of the input can become a tag.
const $ = id => document.getElementById(id);
const kept = children => children.flat(9).filter(child => child || child === 0).map(child =>
  child.name === undefined || child.nodeType ? child : filled(document.createElement('bdi'), null, [child.name]));
function filled(element, attributes, children) {
  for (const [key, value] of Object.entries(attributes || {})) {
    if (typeof value === 'function') element.addEventListener(key, value);
    else if (value !== null && value !== false && value !== undefined) element.setAttribute(key, value);
  }
  element.append(...kept(children));
  return element;
}
const make = (tag, attributes, ...children) => filled(document.createElement(tag), attributes, children);
const drawn = (tag, attributes, ...children) => filled(document.createElementNS('http://www.w3.org/2000/svg', tag), attributes, children);
const press = (click, look, ...children) => make('button', {type: 'button', class: look, click}, ...children);
const put = (id, ...children) => $(id).replaceChildren(...kept(children));
// In a drawn text a name that runs from right to left is set apart, as `bdi` does elsewhere.
const FROM_RIGHT = /[\u0590-\u08ff\ufb1d-\ufdfd\ufe70-\ufefc\ud802\ud803\ud83a\ud83b]/;
const apart = text => FROM_RIGHT.test(text) ? '\u2068' + text + '\u2069' : text;
const capital = text => text[0].toUpperCase() + text.slice(1);
const andJoined = list => list.length < 2 ? list.join('') : list.slice(0, -1).join(', ') + ' and ' + list[list.length - 1];

// ---- What the page is of
const [report, named, lines] = ['report', 'names', 'lines'].map(id => readJson($(id).textContent));
const notes = readNotes($('notes').textContent), run = readLines(readHistory($('history').textContent), lines, named, notes);
const names = nameAll(run, named);
const {verdicts, faults, counts, listed} = gatherFaults(run, report);
const tally = report[1], total = [...counts.values()].reduce((sum, many) => sum + many, 0), isHurt = new Map();
const faultOfRead = new Map(faults.filter(fault => fault.read >= 0).map(fault => [fault.read, fault]));
for (const {read, upTo, session} of faults) if (read >= 0 && upTo < 0) isHurt.set(session, (isHurt.get(session) || 0) + 1);
for (const [session, kinds] of tally ? tally[1] : []) isHurt.set(session, kinds.reduce((sum, [, many]) => sum + many, 0));
const unanswered = [];
for (let op = 0; op < run.count; op++) {
  if (isOfLostWrite(run, names, op) ? run.session[op] < names.clients : isUnanswered(run, op)) unanswered.push(op);
}
const noun = names.isLog ? 'client' : 'session', keyNoun = names.isLog || !run.isMemory ? 'key' : 'variable';
const placeText = op => placeOf(run, op);
const sessionName = (op, length = LONGEST) => name(cut(names.session(run.session[op]), length));

// ---- Headline and cards
function showVerdicts() {
  const titles = {};
  for (const {criterion, answer} of verdicts) (titles[answer] = titles[answer] || []).push(CRITERIA[criterion][0].toLowerCase());
  const whole = {no: 'Not causally consistent', yes: 'Causally consistent', unknown: 'Undecided'};
  const only = Object.keys(titles).length === 1 && Object.keys(titles)[0];
  $('verdict').className = titles.no ? 'no' : titles.unknown ? 'unknown' : 'yes';
  const part = answer => titles[answer] && make('span', {class: answer}, capital(andJoined(titles[answer])) + ' ' +
    ANSWERS[answer][titles[answer].length > 1 ? 1 : 0] + '. ');
  put('headline', only ? make('span', {class: only}, whole[only]) : ['no', 'unknown', 'yes'].map(part));
  document.title = (only ? whole[only] : plainText([$('headline').textContent.trim()])) + ' - causal_judge';
  put('lead', leadOf(titles));
  put('facts', factsOf().map(fact => make('li', null, fact)));
  put('cards', verdicts.map(cardOf));
}
function leadOf(titles) {
  const hurt = isHurt.size, kinds = [...counts].sort((one, other) => other[1] - one[1]);
  const reasons = [...new Set(verdicts.filter(({answer}) => answer === 'no').map(({kind}) => KINDS[kind][2]))];
  if (total === 1 && reasons.length === 1 && faults.length === 1) return faultSentence(run, names, faults[0]);
  if (titles.no && !hurt) return reasons.join(' ');
  const found = andJoined(kinds.map(([kind, many]) => plural(many, ...KINDS[kind])));
  if (total) return `${number(hurt)} of ${plural(names.clients, noun)} ${hurt === 1 ? 'is' : 'are'} affected: ${found}.`;
  if (titles.unknown) return run.repeated.length ? 'A value was written more than once, so nobody can tell which write a read returned.' :
    'No order was found that explains every answer, and none is known to be impossible.';
  if (!run.answer.some(answer => answer >= 0)) return 'No operation returned a value: every order explains the run, so a yes says nothing.';
  return 'For each criterion some order of the operations explains every answer' + (unanswered.length ? ' that is known.' : '.');
}
function factsOf() {
  const all = run.count - 2 * names.lost, show = () => press(() => searchFor('no answer'), 'link', 'show');
  let writes = run.isMemory ? 0 - names.lost : 0;
  for (let op = 0; run.isMemory && op < run.count; op++) writes += isWrite(run, op);
  return [plural(all, 'operation'), plural(names.clients, noun), run.isKeyed && plural(run.keys.tokens.length - names.lost, keyNoun),
    run.isMemory && plural(writes, 'write') + ', ' + plural(all - writes, 'read'), !run.isMemory && 'object: ' + run.object,
    unanswered.length > 0 && [plural(unanswered.length, 'call') + ' without an answer ', show()],
    tally && total > faults.length && `the first ${number(listed)} faults are listed`].filter(Boolean);
}
const NOTHING = 'The line says nothing about the history.';
function whyOf({answer, kind, stopped}) {
  if (answer !== 'unknown') return kind && KINDS[kind][2];
  return (stopped < 0 ? 'No certificate was made. ' : `A certificate was made, and it does not explain ${placeText(stopped)}. `) + NOTHING;
}
function cardOf(verdict) {
  const {criterion, answer, kind, fault, twin, stopped} = verdict, why = whyOf(verdict);
  const line = [criterion, answer, stopped >= 0 ? numberOf(run, stopped) : kind].filter(Boolean).join(' ');
  return make('li', {class: answer},
    make('h2', {class: answer}, make('span', {class: 'sign', 'aria-hidden': 'true'}, ANSWERS[answer][2]),
      make('span', null, CRITERIA[criterion][0]), make('b', {class: 'says'}, ANSWERS[answer][0])),
    make('p', {class: 'soft'}, CRITERIA[criterion][1]),
    why && make('p', null, twin ? 'Same reason as ' + CRITERIA[twin.criterion][0].toLowerCase() + '.' : why),
    make('p', {class: 'line'}, fault && !twin && press(() => choose(fault, true), 'link', 'Show'), make('code', null, line)));
}

// ---- The picture
const HEADS = ['next', 'reads', 'wrong', 'over', 'must'];
const MEANS = {next: 'next in its session', reads: 'read from', wrong: 'what the wrong read got', over: 'overwritten by',
  must: 'must come before'};
const pen = document.createElement('canvas').getContext('2d');
const FONTS = {lane: '700 14px ', op: '600 13px ', small: '11.5px ', value: '12px ', wrong: '700 13px ', right: '600 13px '};
function widthOf(text, look) {
  pen.font = FONTS[look] + getComputedStyle(look === 'value' ? $('mono') : document.documentElement).fontFamily;
  return pen.measureText(text).width;
}
function fitted(text, look, room) {
  if (widthOf(text, look) <= room) return text;
  let low = 1, high = text.length;
  while (low < high) {
    const middle = (low + high + 1) >> 1;
    if (pen.measureText(cut(text, middle)).width <= room) low = middle; else high = middle - 1;
  }
  return cut(text, low);
}
const stepsFor = fault => fault.steps || (fault.steps = stepsOf(run, fault));   // computed once for each fault
const wrongText = ({missed}) => missed < 0 ? 'nobody wrote this' :
  'missed ' + missedWords(names, valueOf(run, missed), 'the ').map(part => part.name ? apart(part.name) : part).join('');
function linesOf(fault, {op}, isWide) {   // the lines of a box: how each looks, and its text
  const {verb, isRead, isOpen, key, value} = operationPieces(run, names, op);
  const lines = [['op', verb + (key && ' ' + apart(key))]], got = value && (isRead ? 'got ' : run.isMemory ? '= ' : '') + apart(value);
  if (value || isOpen) lines.push(['value', [got, isOpen && 'no answer'].filter(Boolean).join(', ')]);
  if (op === fault.read) lines.push(['wrong', '\u2717 ' + wrongText(fault)]);
  if (fault.cycle.has(op)) lines.push(['wrong', '\u2717 in the cycle']);
  if (op === fault.missed) lines.push(['right', verb === 'deletes' ? 'the missed delete' : 'the missed write']);
  return isWide ? lines : [['small', placeText(op) + ' ' + apart(names.session(run.session[op]))], ...lines];
}
function drawPicture(fault) {
  const steps = stepsFor(fault), room = $('fault-shown').clientWidth || 1, width = Math.max(270, Math.min(1180, room));
  const plan = layOut(run, fault, steps, width);
  const side = plan.isWide ? 0 : plan.across + 10, across = plan.isWide ? plan.across : side + Math.min(320, Math.max(190, width - side));
  const texts = [], shapes = [], lines = [], head = plan.isWide ? 50 : 12;
  const write = (x, y, look, text, room, anchor) => {
    const short = fitted(text, look, room);
    texts.push(drawn('text', {x, y, class: look, 'text-anchor': anchor}, short, short !== text && drawn('title', null, text)));
  };
  const low = placeRows(plan, head, node => linesOf(fault, node, plan.isWide));
  for (const node of plan.nodes.values()) {
    const before = plan.nodes.get(node.before);
    if (before) lines.push({how: 'next', path: `M${node.x} ${before.y + before.tall}V${node.y}`});
    if (node.fold) shapes.push(foldMark(node, before, plan.isWide));
    shapes.push(boxOf(fault, node, plan.box));
    writeBox(plan, node, side, across, write);
  }
  for (const link of plan.links) lines.push({how: link.how, path: linkPath(link, plan.box)});
  const rails = plan.lanes.map((session, lane) => laneHead(plan, session, lane, head, low, write));
  const sentence = plainText([faultSentence(run, names, fault)]);
  put('picture', drawn('svg', {role: 'img', 'aria-label': sentence}, drawn('defs', null, HEADS.map(arrowHead)), rails, lines.map(linkLine),
    shapes, texts));
  viewPicture(across, low, room);
  showPictureLegend(plan, lines, steps);
  const words = wordLines(run, names, fault, steps);
  put('word-lines', words.map((line, at) => make('li', {class: at === words.length - 1 && 'end'}, line)));
  $('words').open = across + 300 < room || across > width;
}
// The picture is whole at first, unless it would be too small to read. Then its right side is shown, which has the words of rails.
// On paper the picture is always whole.
const SMALLEST = .8, CLOSEST = 8, pictureView = new View(showPicture, middleInSight);
function viewPicture(across, low, room) {
  const wide = Math.min(across, room), fit = wide / across, tall = low * Math.max(fit, SMALLEST);
  pictureView.stretches = [new Stretch(across, wide / CLOSEST, wide), new Stretch(tall / fit, tall / CLOSEST, tall, low)];
  if (fit < SMALLEST) pictureView.zoom(fit / SMALLEST, [wide, 0]); else showPicture();
}
function middleInSight() {   // a tall picture may reach out of the window
  const {top, bottom, width} = $('picture').getBoundingClientRect(), from = Math.max(0, top), to = Math.min(innerHeight, bottom);
  return from < to ? [width / 2, (from + to) / 2 - top] : null;
}
function showPicture() {
  const [x, y] = pictureView.stretches, isPaper = document.documentElement.classList.contains('paper');
  const [left, top, across, low] = isPaper ? [0, 0, x.end, y.end] : [x.from, y.from, x.many, y.many];
  filled($('picture').firstChild, {viewBox: `${left} ${top} ${across} ${low}`, width: isPaper ? across : x.pixels,
    height: isPaper ? low : y.pixels}, []);
  $('picture').className = !y.isFixed ? 'free' : x.isFixed ? '' : 'sideways';
}
function boxOf(fault, {op, x, y, tall}, box) {
  const look = isWrong(fault, op) ? ' wrong' : op === fault.missed ? ' missed' : operationPieces(run, names, op).isOpen ? ' open' : '';
  return drawn('rect', {x: x - box / 2, y, width: box, height: tall, rx: 6, class: 'box' + look});
}
function writeBox({isWide, box}, {op, x, y, lines}, side, across, write) {
  const begin = isWide ? x - box / 2 + 10 : side, room = isWide ? box - 20 : across - side - 6;
  const place = isWide ? 10 + 7 * placeText(op).length : 0, isTight = lines.length > 1 && widthOf(lines[0][1], 'op') > room - place;
  const shared = isTight ? 1 : 0;   // the place is at the right end of this line
  if (isWide) write(x + box / 2 - 10, y + 19 + LINE * shared, 'small', placeText(op), 80, 'end');
  lines.forEach(([look, text], at) => write(begin, y + 19 + LINE * at, look, text, at === shared ? room - place : room));
}
function showPictureLegend(plan, lines, steps) {   // only what this picture has
  const sample = how => drawn('svg', {width: 34, height: 12, 'aria-hidden': 'true'}, linkLine({how, path: 'M1 6H32'}));
  put('legend', HEADS.filter(how => lines.some(line => line.how === how)).map(how => make('li', null, sample(how), MEANS[how])),
    [...plan.nodes.values()].some(node => node.fold) && make('li', null, make('span', {class: 'pill'}, 'n'), 'operations left out'),
    steps.leftOut > 0 && make('li', null, plural(steps.leftOut, 'step') + ' left out'));
}
function foldMark(node, before, isWide) {
  const y = before.y + before.tall + (node.y - before.y - before.tall) / 2, half = isWide ? 58 : 15;
  return [drawn('rect', {x: node.x - half, y: y - 10, width: 2 * half, height: 19, rx: 9, class: 'fold'},
    drawn('title', null, plural(node.fold, 'operation') + ' left out')),
  drawn('text', {x: node.x, y: y + 4, class: 'small', 'text-anchor': 'middle'}, isWide ? plural(node.fold, 'operation') : node.fold)];
}
function laneHead(plan, session, lane, head, low, write) {
  const x = plan.left[lane] + plan.box / 2, first = plan.order.find(op => run.session[op] === session), before = indexOf(run, first);
  if (plan.isWide) {
    write(x, 16, 'lane', apart(names.session(session)), plan.box, 'middle');
    const since = session >= names.clients ? 'its call got no answer' : before ? plural(before, 'operation') + ' before' : 'from its start';
    write(x, 33, 'small', since, plan.box, 'middle');
  }
  return drawn('path', {d: `M${x} ${head - 10}V${low - 10}`, class: 'rail'});
}
const arrowHead = how => drawn('marker', {id: 'head-' + how, viewBox: '0 0 10 10', refX: 9, refY: 5, markerUnits: 'userSpaceOnUse',
  markerWidth: 11, markerHeight: 11, orient: 'auto'}, drawn('path', {d: 'M0 0L10 5L0 10Z', class: 'tip ' + how}));
const linkLine = ({how, path}) => drawn('path', {d: path, class: 'link-line ' + how, 'marker-end': `url(#head-${how})`});

// ---- One fault, and the list of all
let current = null, most = 100;
function choose(fault, moves) {
  if (!fault) return;
  current = fault;
  $('fault').hidden = false;
  drawPicture(fault);
  const which = faults.length > 1 ? `Fault ${number(fault.number + 1)} of ${number(faults.length)}` : 'What went wrong';
  put('fault-title', `${which}: ${titleOf(fault.kind)}`);
  const breaks = guaranteeOf(run, fault);
  put('fault-words', total > 1 || faults.length > 1 ? faultSentence(run, names, fault) : null,
    breaks && [' ', make('span', {class: 'tag'}, 'breaks \u201c' + breaks + '\u201d')]);
  markListed(fault);
  const top = $('fault').getBoundingClientRect().top;
  if (moves && (top < 0 || top > innerHeight - 240)) $('fault').scrollIntoView();
  if (!$('search').value && fault.read >= 0) listAround(fault.read);
  redraw();
}
function markListed(fault) {
  const list = $('fault-list'), item = $('fault-' + fault.number);
  for (const other of list.querySelectorAll('[aria-current]')) { other.removeAttribute('aria-current'); other.tabIndex = -1; }
  if (!item) return;
  item.setAttribute('aria-current', 'true');
  item.tabIndex = 0;
  const box = list.getBoundingClientRect(), mine = item.getBoundingClientRect();
  list.scrollTop += Math.min(0, mine.top - box.top) + Math.max(0, mine.bottom - box.bottom);
}
const PICKS = {'of-client': ({session}) => session, 'of-key': ({read}) => read < 0 ? NONE : run.key[read], 'of-kind': ({kind}) => kind};
const isPicked = fault => Object.entries(PICKS).every(([id, of]) => !$(id).value || String(of(fault)) === $(id).value);
const picked = () => faults.filter(isPicked);
function listFaults() {
  const list = picked(), stop = list.includes(current) ? current : list[0];
  const all = plural(faults.length, 'fault');
  put('faults-title', list.length === faults.length ? all : `${number(list.length)} of ${all}`);
  put('fault-list', list.slice(0, most).map(fault => make('li', null, make('button', {type: 'button', id: 'fault-' + fault.number,
    tabindex: fault === stop ? 0 : -1, 'aria-current': fault === current && 'true', click: () => choose(fault, true)}, faultLine(fault)))),
  !list.length && make('li', {class: 'soft'}, 'No fault is of these.'));
  put('fault-rest', list.length > most && press(() => { most += 200; listFaults(); }, '', `Show more (${number(list.length - most)} left)`),
    total > faults.length && make('span', {class: 'soft'}, ` Of ${number(total)} faults the first ${number(listed)} are listed.`));
}
function faultLine({kind, read, missed, session}) {
  const where = session >= 0 ? name(names.session(session)) : kind;
  if (read < 0) return [make('span', {class: 'what'}, titleOf(kind)), make('span', {class: 'more'}, where)];
  const short = text => name(cut(text, 24)), got = short(names.value(run.answer[read]));
  return [make('span', {class: 'where'}, placeText(read)),
    make('span', {class: 'what'}, short(names.session(session)), ' read ', short(names.key(run.key[read]))),
    make('span', {class: 'more'}, make('span', null, 'got ', got, missed >= 0 && [', missed ', short(names.value(valueOf(run, missed)))]),
      make('i', null, titleOf(kind)))];
}
function fillFilters() {
  const choices = (id, label, all) => {
    const many = new Map();
    for (const value of faults.map(PICKS[id])) if (value !== NONE) many.set(value, (many.get(value) || 0) + 1);
    const sorted = [...many].sort((one, other) => other[1] - one[1]).slice(0, 200);
    const option = ([value, n]) => make('option', {value}, `${apart(cut(label(value), 40))} (${number(n)})`);
    put(id, make('option', {value: ''}, all), sorted.map(option));
    $(id).hidden = many.size < 2;
    $(id).addEventListener('change', () => { most = 100; listFaults(); });
  };
  choices('of-client', s => names.session(s), `All ${noun}s`);
  choices('of-key', key => names.key(key), `All ${keyNoun}s`);
  choices('of-kind', kind => kind, 'All kinds');
}
function step(by) {
  const list = picked(), place = list.indexOf(current);
  if (list.length) choose(list[place < 0 ? 0 : (place + by + list.length) % list.length], true);
}

// ---- Why a verdict is undecided, or has no picture
function showUnknown() {
  const verdict = verdicts.find(({answer, fault}) => answer !== 'yes' && !fault);
  if (!verdict || faults.length) return;
  $('fault').hidden = false;
  put('fault-title', verdict.answer === 'no' ? 'What went wrong: ' + titleOf(verdict.kind) : 'Why it is undecided');
  put('fault-words', verdict.answer === 'no' ? 'Such a pattern is in the history. It may be too long to write, so it is not drawn.' :
    (run.isMemory ? 'Where a key is written twice with one value, or with its initial value, a read does not tell its write' :
      'No patterns are known of this object') + ': only a certificate can decide, and only for a yes.' + (run.repeated.length ?
      ` What the other ${keyNoun}s show by themselves is in the words of causal_judge explain.` : ''));
  const same = run.repeated.slice(0, 20).map(ops => make('li', null, name(names.value(valueOf(run, ops[0]))), ' is written to ',
    name(names.key(run.key[ops[0]])), ' by ' + andJoined(ops.slice(0, 8).map(placeText)) + (ops.length > 8 ? ' and others' : '') +
    (initialOf(run, run.key[ops[0]]) === valueOf(run, ops[0]) ? ', and is its initial value' : '')));
  const stopped = new Map();
  for (const {stopped: op, criterion} of verdicts) {
    if (op >= 0) stopped.set(op, [...(stopped.get(op) || []), CRITERIA[criterion][0].toLowerCase()]);
  }
  const stops = [...stopped].map(([op, titles]) => make('li', null, capital(andJoined(titles)) + ': ', placeText(op) + ' ',
    operationWords(run, names, op), ', which the certificate that was made does not explain'));
  put('word-lines', same, run.repeated.length > 20 && make('li', null, plural(run.repeated.length - 20, 'more value')), stops);
  $('words').open = true;
  put('words-head', 'What prevents a verdict');
  $('words').hidden = !same.length && !stops.length;
  $('shape').hidden = $('picture-buttons').hidden = true;
}

// ---- The whole run: a row for each session, its operations from left to right
const map = $('map'), ROWS = Math.max(1, Math.min(run.sessions, 400)), AXIS = 20, PAD = 8;
const ROW = run.sessions <= 14 ? 26 : Math.max(run.sessions <= 42 ? 13 : 4, Math.min(20, Math.floor(440 / ROWS)));
const rowOf = session => Math.floor(session * ROWS / run.sessions);
const sizeOf = session => run.base[session + 1] - run.base[session];
let longest = 1, left = 0, right = 8, measured = 0, hits = [], marked = NONE, cursor = NONE, isDue = false;
for (let session = 0; session < run.sessions; session++) longest = Math.max(longest, sizeOf(session));
const seen = new Stretch(1, 4, 1), isSeen = index => index >= seen.from && index < seen.to, pixelOf = place => seen.pixelOf(place);
const redraw = () => { if (!isDue) { isDue = true; requestAnimationFrame(() => { isDue = false; drawMap(); }); } };
const cursorSpot = () => cursor >= 0 && isSeen(indexOf(run, cursor)) ? [pixelOf(indexOf(run, cursor))] : null;
const runView = new View(redraw, cursorSpot);
runView.stretches = [seen];
function colours() {
  const style = getComputedStyle(document.documentElement), known = {};
  return name => known[name] || (known[name] = style.getPropertyValue('--' + name).trim());
}
function sizeMap(c) {   // the canvas in the pixels of the screen, and the margins for names and counts
  const wide = map.clientWidth, tall = ROWS * ROW + AXIS, scale = devicePixelRatio || 1;
  map.width = Math.round(wide * scale);
  map.height = Math.round(tall * scale);
  c.setTransform(scale, 0, 0, scale, 0, 0);
  c.font = '12px ' + getComputedStyle(document.documentElement).fontFamily;
  c.textBaseline = 'middle';
  if (measured !== wide) left = Math.min(widestName(c, wide), wide * .3);
  measured = wide;
  right = isHurt.size ? 46 : 8;
  seen.begin = left + PAD;
  seen.pixels = Math.max(50, wide - left - right - 2 * PAD);
  seen.resize(Math.max(longest, seen.pixels / 150));
  return wide;
}
function widestName(c, wide) {
  const widths = Array.from({length: Math.min(run.sessions, 400)}, (_, session) => c.measureText(rowName(session, wide)).width);
  return widths.reduce((most, width) => Math.max(most, 14 + width), 40);
}
const rowName = (session, wide) => apart(cut(names.session(session), wide < 600 ? 12 : 24));
const shownOf = session => [Math.max(0, Math.floor(seen.from)), Math.min(sizeOf(session), Math.ceil(seen.to))];
function drawMap() {
  const c = map.getContext('2d'), colour = colours(), wide = sizeMap(c), low = ROWS * ROW, each = 1 / seen.perPixel;
  c.fillStyle = colour('track');
  c.fillRect(left, 0, wide - left - right, low);
  c.save();
  c.beginPath();
  c.rect(left, 0, wide - left - right, low + AXIS);
  c.clip();
  const isEach = each >= 2 || run.count < 4000;
  if (isEach) drawEach(c, colour, each); else drawDense(c, colour('call'), 60, visitShown);
  drawMarks(c, colour, each, isEach);
  showLegend(each >= 64 && ROW >= 20, isEach);
  c.fillStyle = colour('card');
  if (ROW > 4) for (let row = 1; row <= ROWS; row++) c.fillRect(left, row * ROW - 2, wide - left - right, ROW > 6 ? 2 : 1);
  drawRings(c, colour, each);
  c.restore();
  drawMargins(c, colour, wide, low);
}
function showLegend(withWords, isEach) {
  const entry = (shade, text) => make('li', null, make('span', {class: 'swatch ' + shade}), text);
  const calls = 'operations' + (!isEach ? ' (stronger: more)' : ROW > 8 ? ' (reads lower)' : '');
  put('map-legend', !withWords && entry('call', calls), faultOfRead.size > 0 && entry('wrong', 'fault'),
    unanswered.length > 0 && entry('open', 'no answer'), hits.length > 0 && entry('found', 'found by the search'));
}
function drawEach(c, colour, each) {   // each operation by itself; with its words where there is room
  const withWords = each >= 64 && ROW >= 20;
  for (let session = 0; session < run.sessions; session++) {
    const [from, to] = shownOf(session), y = rowOf(session) * ROW, tall = ROW - (ROW > 6 ? 2 : 1);
    for (let index = from; index < to; index++) {
      const op = run.base[session] + index, x = pixelOf(index), across = Math.max(1, each - (each > 5 ? 2 : each > 2 ? 1 : 0));
      const pieces = withWords || ROW > 8 ? operationPieces(run, names, op) : null, isLow = pieces && pieces.isRead && !withWords;
      const fault = faultOfRead.has(op);
      c.fillStyle = colour(withWords ? fault ? 'wrong-card' : 'card' : fault ? 'wrong' : pieces && pieces.isOpen ? 'open' : 'call');
      c.fillRect(x, y + (isLow ? tall * .45 : 0), across, isLow ? tall * .55 : tall);
      if (!withWords) continue;
      c.strokeStyle = colour(fault ? 'wrong' : pieces.isOpen ? 'open' : 'line');
      c.lineWidth = fault ? 2 : 1;
      c.setLineDash(pieces.isOpen ? [4, 3] : []);
      c.strokeRect(x + .5, y + 1, across - 1, tall - 2);
      c.setLineDash([]);
      c.fillStyle = colour(fault ? 'wrong' : 'text');
      c.fillText(fittedOn(c, shortWords(op, pieces), across - 12), x + 6, y + tall / 2);
    }
  }
}
function shortWords(op, {verb, isRead, isOpen, key, value}) {
  const lost = {calls: 'lost', comes: 'after', late: 'late'}, own = key.replace(/^(variable|key) (?=\d)/, '');
  const word = verb === 'deletes' ? 'del' : isOfLostWrite(run, names, op) ? lost[verb.split(' ')[0]] : wordOf(run, op);
  const sign = !run.isMemory ? '' : isRead ? '\u2192 ' : '= ';
  return [word, own && apart(own), value && sign + apart(value), isOpen && '?'].filter(Boolean).join(' ');
}
function fittedOn(c, text, room) {
  if (c.measureText(text).width <= room) return text;
  let length = text.length;
  while (length > 2 && c.measureText(cut(text, length)).width > room) length = Math.min(length - 1, Math.floor(length * .9));
  return cut(text, length);
}
// Many: an image with a pixel for each row and each two pixels, the stronger the more there are.
function drawDense(c, shade, weakest, visit) {
  const bins = Math.ceil(seen.pixels / 2) + 1, many = new Uint32Array(ROWS * bins), per = 1 / seen.perPixel / 2, {from} = seen;
  let top = 1;
  visit((session, index) => {
    const bin = rowOf(session) * bins + Math.max(0, Math.min(bins - 1, Math.floor((index - from) * per)));
    if (++many[bin] > top) top = many[bin];
  });
  const image = new ImageData(bins, ROWS), small = document.createElement('canvas'), hex = parseInt(shade.slice(1), 16);
  many.forEach((n, at) => { if (n) image.data.set([hex >> 16, hex >> 8 & 255, hex & 255, weakest + (255 - weakest) * n / top], 4 * at); });
  small.width = bins;
  small.height = ROWS;
  small.getContext('2d').putImageData(image, 0, 0);
  c.imageSmoothingEnabled = false;
  c.drawImage(small, left + PAD, 0, bins * 2, ROWS * ROW);
}
function visitShown(visit) {
  for (let session = 0; session < run.sessions; session++) {
    const [from, to] = shownOf(session);
    for (let index = from; index < to; index++) visit(session, index);
  }
}
const visitAll = ops => visit => {
  for (const op of ops) {
    const index = indexOf(run, op);
    if (isSeen(index)) visit(run.session[op], index);
  }
};
function drawMarks(c, colour, each, isEach) {
  const done = new Set(), tall = ROW - (ROW > 6 ? 2 : 1);
  const tick = (op, shade, across) => {   // one for each pixel of a row is enough
    const x = Math.round(pixelOf(indexOf(run, op) + Math.min(.5, 4 / each))), row = rowOf(run.session[op]), spot = shade + (x * ROWS + row);
    if (x < left - 4 || x > left + seen.pixels + 20 || done.has(spot)) return;
    done.add(spot);
    c.fillRect(x - across / 2, row * ROW, across, tall);
  };
  const all = (ops, shade, across) => { c.fillStyle = colour(shade); for (const op of ops) tick(op, shade, across); };
  if (!isEach) {
    drawDense(c, colour('open'), 90, visitAll(unanswered));
    drawDense(c, colour('wrong'), 90, visitAll(faultOfRead.keys()));
    all(hits, 'found', 3);
  } else if (each < 10) { all(unanswered, 'open', 3); all(faultOfRead.keys(), 'wrong', 4); all(hits, 'found', 3); } else {
    c.fillStyle = colour('found');
    for (const op of hits) c.fillRect(pixelOf(indexOf(run, op)), rowOf(run.session[op]) * ROW + tall - 4, Math.max(3, each - 2), 4);
  }
}
function drawRings(c, colour, each) {   // around the operations of the fault, what was clicked, and where the keys are
  const tall = ROW - (ROW > 6 ? 2 : 1);
  const ring = (op, shade, wide) => {
    c.strokeStyle = colour(shade);
    c.lineWidth = wide;
    const x = pixelOf(indexOf(run, op)), across = Math.max(10, each - 2);
    c.strokeRect(x - (each < 10 ? 5 : 0), rowOf(run.session[op]) * ROW, across, tall);
  };
  for (const op of current ? opsOf(current, stepsFor(current)) : []) ring(op, isWrong(current, op) ? 'wrong' : 'text', 2);
  for (const {stopped} of verdicts) if (stopped >= 0) ring(stopped, 'open', 2);
  if (marked >= 0 && marked !== (current || {}).read) ring(marked, 'accent', 3);
  if (cursor >= 0 && document.activeElement === map) ring(cursor, 'accent', 3);
}
function drawMargins(c, colour, wide, low) {
  c.textAlign = 'right';
  for (let row = 0, next = ROW < 13 ? 6 : 0; row < Math.min(ROWS, run.sessions); row++) {
    if (row * ROW < next) continue;
    const session = Math.ceil(row * run.sessions / ROWS);
    c.fillStyle = colour(isHurt.has(session) ? 'text' : 'muted');
    c.fillText(rowName(session, wide), left - 6, (row + .5) * ROW - 1, left - 8);
    next = row * ROW + 13;
  }
  c.textAlign = 'left';
  c.fillStyle = colour('wrong');
  const counted = ROW > 9 ? isHurt : [];
  for (const [session, many] of counted) c.fillText('\u2717 ' + number(many), wide - right + 8, (rowOf(session) + .5) * ROW - 1);
  const raw = seen.perPixel * 80, ten = 10 ** Math.floor(Math.log10(raw));
  const unit = Math.max(1, [1, 2, 5, 10].find(many => many * ten >= raw) * ten);
  c.fillStyle = colour('muted');
  for (let place = Math.ceil(seen.from / unit) * unit; place < Math.min(seen.to, longest); place += unit) {
    const x = pixelOf(place);
    c.fillRect(x, low, 1, 4);
    if (x < wide - right - 14) c.fillText(number(place), x, low + 12);
  }
  const last = Math.min(longest, Math.ceil(seen.to)), from = Math.floor(seen.from);
  const to = number(Math.max(from, last - 1)), all = last - from < longest ? `, of ${number(longest)}` : '';
  put('range', run.count ? `Operations ${number(from)} to ${to} of each ${noun}${all}` : 'No operations');
}
function bringIn(op) {
  const index = indexOf(run, op);
  if (index < seen.from || index >= seen.to - .5) seen.move(index - seen.middle);
}
const rowAt = pixel => Math.max(0, Math.min(ROWS - 1, Math.floor(pixel / ROW)));
function opNear([pixel, y]) {   // of the sessions of a row the operation there; one at fault within 6 pixels goes first
  let best = NONE, far = Infinity;
  const row = rowAt(y), place = seen.placeAt(pixel), near = 6 * seen.perPixel, first = Math.ceil(row * run.sessions / ROWS);
  for (let session = first; session < run.sessions && rowOf(session) === row; session++) {
    if (!sizeOf(session)) continue;
    const offer = (index, away) => { if (away < far) { far = away; best = run.base[session] + index; } };
    for (let index = Math.max(0, Math.floor(place - near)); index <= Math.min(sizeOf(session) - 1, place + near); index++) {
      if (faultOfRead.has(run.base[session] + index)) offer(index, Math.abs(index - place) - 1e9);
    }
    const index = Math.max(0, Math.min(sizeOf(session) - 1, Math.floor(place)));
    offer(index, Math.abs(index + .5 - place));
  }
  return best;
}
function hint(op) {
  if (op < 0) return;
  const fault = faultOfRead.get(op);
  put('under', placeText(op) + ': ', sessionName(op, 60), ' ', operationWords(run, names, op), noteWords(run, op),
    fault && make('strong', {class: 'bad'}, ' \u2717 ' + titleOf(fault.kind)));
}

// ---- Operations: what is around one, or what the search finds
const COLUMNS = ['operation', noun, 'does', run.isKeyed ? keyNoun : null, 'value', run.isMemory ? 'reads from' : null,
  run.notes.size ? 'notes' : null];
const DEFAULT_ROWS = 60, AROUND = 12;
function listOps(ops, title, limit = 100) {
  put('operations-title', title);
  put('rows', ops.slice(0, limit).map(rowFor));
  put('more', ops.length > limit && press(() => listOps(ops, title, limit + 400), '', `Show more (${number(ops.length - limit)} left)`));
  $('table').hidden = !ops.length;
}
function rowFor(op) {
  const {verb, isOpen, key, value} = operationPieces(run, names, op), fault = faultOfRead.get(op), source = run.source[op];
  const cell = (...children) => make('td', null, ...children), long = innerWidth < 600 ? 24 : 60;
  return make('tr', {class: (fault ? 'bad ' : '') + (op === marked ? 'here' : '')}, cell(press(() => showOp(op), 'link', placeText(op))),
    cell(sessionName(op, long)), cell(verb), run.isKeyed && cell(name(cut(key, long))),
    cell(value && make('code', null, name(cut(value, long))), isOpen && make('i', {class: 'soft'}, value ? ', no answer' : 'no answer')),
    run.isMemory && cell(fault ? press(() => choose(fault, true), 'link bad', '\u2717 ' + titleOf(fault.kind)) :
      source >= 0 ? [press(() => showOp(source), 'link', placeText(source)), ' ', sessionName(source, 24)] :
        isRead(run, op) && run.answer[op] === initialOf(run, run.key[op]) && 'the start'),
    run.notes.size > 0 && cell(notedLines(run, op).map((line, at) => [at > 0 && ' ', make('code', {title: 'line ' + line},
      name(cut(noteShown(run.notes.get(line)), long)))])));
}
function listAround(op) {
  const session = run.session[op], first = Math.max(run.base[session], op - AROUND);
  const end = Math.min(run.base[session + 1], op + AROUND + 1);
  const ops = Array.from({length: end - first}, (_, more) => first + more);
  marked = op;
  listOps(ops, ['Operations of ', sessionName(op, 40), ' around ' + placeText(op)]);
}
function showOp(op) {
  bringIn(op);
  listAround(op);
  hint(op);
  redraw();
  $('rows').querySelector('.here button').focus();
}
function listFirst() {
  marked = NONE;
  const many = Math.min(run.count, DEFAULT_ROWS);
  listOps(Array.from({length: many}, (_, op) => op), many < run.count ? `The first ${many} operations` : 'Operations');
}
let lowered = null;
const TERM = /(?:session|client|variable|key|line) \d+(?!\S)|\S+/g;
function search() {   // each term has to be in the session, the key, the value, a note or what is done, or to be the place of the operation
  const terms = $('search').value.toLowerCase().match(TERM) || [];
  hits = [];
  marked = NONE;
  if (!terms.length) {
    redraw();
    return current && current.read >= 0 ? listAround(current.read) : listFirst();
  }
  lowered = lowered || lowerNames();
  const tests = terms.map(termTest);
  for (let op = 0; op < run.count; op++) if (tests.every(test => test(op))) hits.push(op);
  listOps(hits, `${plural(hits.length, 'operation')} found`);
  redraw();
}
const lowerNames = () => ({sessions: Array.from({length: run.sessions}, (_, session) => names.session(session).toLowerCase()),
  keys: run.keys.tokens.map((_, key) => names.isMark(key) ? '' : names.key(key).toLowerCase()),
  values: run.values.tokens.map((_, value) => names.value(value).toLowerCase()),
  notes: [...run.notes].map(([line, note]) => [line, asWritten(note).toLowerCase()])});
function termTest(term) {
  if (/^\d+\.\d+$/.test(term)) return op => numberOf(run, op) === term;
  if (run.lines && /^line \d+$/.test(term)) return op => term === 'line ' + run.lines[op];
  const isWhole = term.includes(' '), found = list => list.map(text => isWhole ? text === term : text.includes(term));
  const [sessions, keys, values] = ['sessions', 'keys', 'values'].map(of => found(lowered[of]));
  const words = WORD_LIST.map(word => `${DONE[word]} ${word}`.includes(term)), isLost = 'lost no answer'.includes(term);
  const noted = new Set(lowered.notes.filter(([, note]) => note.includes(term)).map(([line]) => line));
  const isNamed = op => sessions[run.session[op]] || keys[run.key[op]] || values[run.argument[op]] || values[run.answer[op]];
  const isNoted = op => noted.size > 0 && notedLines(run, op).some(line => noted.has(line));
  return op => isNamed(op) || words[run.word[op]] || isNoted(op) || isLost && (isUnanswered(run, op) || isOfLostWrite(run, names, op));
}
function searchFor(text) {
  $('search').value = text;
  search();
  $('operations').scrollIntoView();
}

// ---- Clicks and keys
function pick(op) {
  if (op < 0) return;
  cursor = op;
  $('search').value = '';
  hits = [];
  hint(op);
  if (faultOfRead.has(op)) choose(faultOfRead.get(op));
  listAround(op);
  redraw();
}
function moveCursor(sessions, places) {
  if (cursor < 0) cursor = opNear([seen.pixelOf(seen.middle), 0]);
  if (cursor < 0) return;
  const session = run.session[cursor], index = indexOf(run, cursor);
  let next = session + sessions;
  while (next >= 0 && next < run.sessions && !sizeOf(next)) next += Math.sign(sessions);
  if (next < 0 || next >= run.sessions) return;
  cursor = run.base[next] + Math.max(0, Math.min(sizeOf(next) - 1, index + places));
  bringIn(cursor);
  const box = $('lanes'), y = rowOf(next) * ROW;
  box.scrollTop += Math.min(0, y - box.scrollTop) + Math.max(0, y + ROW + AXIS - box.scrollTop - box.clientHeight);
  hint(cursor);
  redraw();
}
function runKeys() {   // in the run the arrows move the cursor, and so the view
  const far = () => Math.max(1, Math.round(8 * seen.perPixel));
  return {ArrowLeft: () => moveCursor(0, -far()), ArrowRight: () => moveCursor(0, far()), ArrowUp: () => moveCursor(-1, 0),
    ArrowDown: () => moveCursor(1, 0), Enter: () => pick(cursor)};
}
function answerViews() {
  answerPointer(map, runView, {tap: spot => pick(opNear(spot)), hover: spot => hint(opNear(spot))});
  answerPointer($('picture'), pictureView, {tap() {}, hover() {}});
  for (const [element, name, view, keys] of [[map, 'run', runView, runKeys()], [$('picture'), 'picture', pictureView, {}]]) {
    answerMouse(element, view);
    answerViewKeys(element, view, keys);
    answerViewButtons(name, view);
  }
}
function answerListKey(event) {
  const items = [...$('fault-list').querySelectorAll('button')], place = items.indexOf(document.activeElement);
  const next = items[{ArrowDown: place + 1, ArrowUp: place - 1, Home: 0, End: items.length - 1}[event.key]];
  if (!next) return;
  event.preventDefault();
  next.focus();
  choose(faults[next.id.slice('fault-'.length)]);
}
function answerKeys() {
  let timer = 0;
  $('search').addEventListener('input', () => { clearTimeout(timer); timer = setTimeout(search, 120); });
  $('search').addEventListener('keydown', event => {
    if (event.key === 'Escape') { event.preventDefault(); $('search').value = ''; search(); $('search').blur(); }
    if (event.key !== 'Enter') return;
    event.preventDefault();   // else the same key would press the button that gets the focus
    clearTimeout(timer);
    search();
    $('rows').querySelector('button')?.focus();
  });
  $('fault-list').addEventListener('keydown', answerListKey);
  for (const event of ['focus', 'blur']) map.addEventListener(event, redraw);
  for (const [id, act] of [['earlier', () => step(-1)], ['later', () => step(1)]]) $(id).addEventListener('click', act);
  document.addEventListener('keydown', event => {
    if (event.ctrlKey || event.metaKey || event.altKey || /^(INPUT|SELECT)$/.test(event.target.tagName)) return;
    const act = {'/': () => { event.preventDefault(); $('search').focus(); }, n: () => step(1), p: () => step(-1)}[event.key];
    if (act) act();
  });
}

// ---- Start
function caution() {
  const asks = names.isLog && run.values.tokens.some(token => typeof token === 'number' && token > 0 && token % 2 === 0);
  const isMet = verdicts.every(({answer}) => answer === 'yes');
  return [isMet && 'A yes says nothing of real time, of durability, or of reads that could have been fresher. ',
    faults.length > 0 && 'Each fault by itself shows that a criterion is not met. ', asks &&
    'Reads that found nothing under a key that is deleted at some time ask nothing, and are not shown. ',
    run.lines ? 'A line is that of the log on which the call begins.' : '2.1 is operation 1 of session 2, both counted from 0.'];
}
function start() {
  $('said').remove();
  $('live').hidden = false;
  put('columns', COLUMNS.filter(Boolean).map(title => make('th', {scope: 'col'}, title)));
  const sought = [noun, run.isKeyed && keyNoun, 'value', run.notes.size && 'note'].filter(Boolean);
  $('search').placeholder = `Search ${sought.join(', ')} or place`;
  showVerdicts();
  fillFilters();
  $('faults').hidden = faults.length < 2;
  $('evidence').className = faults.length < 2 ? 'alone' : '';
  put('caution', caution());
  put('under', run.count > 0 && 'Click an operation to list what is around it.');
  answerViews();
  answerKeys();
  listFirst();
  choose((verdicts.find(({fault}) => fault) || {}).fault || faults[0]);
  showUnknown();
  listFaults();
  drawMap();
}
let width = innerWidth;
start();
addEventListener('resize', () => {
  if (width === innerWidth) return;
  width = innerWidth;
  if (current) drawPicture(current);
  drawMap();
});
matchMedia('(prefers-color-scheme: dark)').addEventListener('change', redraw);
for (const [event, isPaper] of [['beforeprint', true], ['afterprint', false]]) addEventListener(event, () => {
  document.documentElement.classList.toggle('paper', isPaper);
  if (current) showPicture();
  drawMap();
});
document.documentElement.dataset.ready = 'yes';
})();
"#;
