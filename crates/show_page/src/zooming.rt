//! The second part of the page's script: how a view is moved and zoomed, by pointer, wheel, keys and buttons.
//!
//! The whole run is a view in one direction, and the picture of a fault is a view in two. Both use this part, and each draws itself.

/// The second part of the script: ASCII, with nothing that ends a script element.
pub const ZOOMING: &str = r#"
// ---- A stretch is what a view shows in one direction, from `from` to `to`: at most `all`, and at least `least`. What is drawn ends at
// `end`. The stretch takes `pixels` of the element, from the pixel `begin` on.
class Stretch {
  constructor(all, least, pixels, end = all) { Object.assign(this, {all, least, pixels, end, begin: 0, from: 0, to: all}); }
  get many() { return this.to - this.from; }
  get middle() { return (this.from + this.to) / 2; }
  get isWhole() { return this.many >= this.all; }
  get isFixed() { return this.many > this.end * .999; }
  get perPixel() { return this.many / this.pixels; }
  placeAt(pixel) { return this.from + (pixel - this.begin) * this.perPixel; }
  pixelOf(place) { return this.begin + (place - this.from) / this.perPixel; }
  within(many) { return Math.max(Math.min(this.least, this.all), Math.min(this.all, many)); }
  show(from, many) {   // whether something else is shown than before
    const before = [this.from, this.to], shown = this.within(many);
    this.from = Math.max(0, Math.min(this.end - shown, from));
    this.to = this.from + shown;
    return before[0] !== this.from || before[1] !== this.to;
  }
  move(by) { return this.show(this.from + by, this.many); }
  zoom(by, place) {   // `place` stays at its pixel
    const many = this.within(this.many * by);
    return this.show(place - (place - this.from) * many / this.many, many);
  }
  resize(all) {   // a whole stretch stays whole
    const many = this.isWhole ? all : this.many;
    this.all = this.end = all;
    this.show(this.from, many);
  }
}

// A view shows one stretch, or two: from left to right, and from top to bottom. `draw` draws it. A spot is a pixel for each direction.
// A zoom without a spot keeps the spot that `focus` gives, or else the middle.
class View {
  constructor(draw, focus) { Object.assign(this, {draw, focus, stretches: []}); }
  get isWhole() { return this.stretches.every(stretch => stretch.isWhole); }
  change(act) {
    const changed = this.stretches.map(act).some(Boolean);
    if (changed) this.draw();
    return changed;
  }
  move(pixels) { return this.change((stretch, at) => stretch.move(pixels[at] * stretch.perPixel)); }
  zoom(by, spot = this.focus()) {
    return this.change((stretch, at) => stretch.zoom(by, spot ? stretch.placeAt(spot[at]) : stretch.middle));
  }
  showAll() { return this.change(stretch => stretch.show(0, stretch.all)); }
  turn(by) { return this.change((stretch, at) => at === this.stretches.length - 1 && stretch.move(by * stretch.many)); }
}

// ---- Pointer: a drag moves a view. Two fingers, Ctrl with the wheel, and a double click zoom it.
const STILL = 4, CLOSER = .5, WIDER = 2;
const spotIn = (element, {clientX, clientY}) => {
  const box = element.getBoundingClientRect();
  return [clientX - box.left, clientY - box.top];
};
const farApart = (one, other) => Math.hypot(one[0] - other[0], one[1] - other[1]);
function answerPointer(element, view, {tap, hover}) {
  const held = new Map();   // the last spot of each finger that is down, or of the mouse
  let moved = 0;
  const drop = event => held.delete(event.pointerId);
  element.addEventListener('pointerdown', event => {
    if (event.button) return;
    if (!held.size) moved = 0;
    held.set(event.pointerId, spotIn(element, event));
    if (!view.isWhole) element.setPointerCapture(event.pointerId);
  });
  element.addEventListener('pointermove', event => {
    const spot = spotIn(element, event), before = held.get(event.pointerId);
    if (!before) return hover(spot);
    const other = [...held].find(([id]) => id !== event.pointerId);
    held.set(event.pointerId, spot);
    moved += farApart(before, spot);
    if (other) pinch(view, before, spot, other[1]);
    else if (moved > STILL) view.move([before[0] - spot[0], before[1] - spot[1]]);
  });
  element.addEventListener('pointerup', event => {
    if (held.size === 1 && held.has(event.pointerId) && moved <= STILL) tap(spotIn(element, event));
    drop(event);
  });
  for (const end of ['pointercancel', 'pointerleave']) element.addEventListener(end, drop);
  element.addEventListener('touchmove', event => { if (event.touches.length > 1) event.preventDefault(); }, {passive: false});
}
function pinch(view, before, spot, other) {   // what is halfway between the fingers stays there
  view.move([0, 1].map(at => (before[at] - spot[at]) / 2));
  view.zoom(farApart(before, other) / Math.max(8, farApart(spot, other)), [0, 1].map(at => (spot[at] + other[at]) / 2));
}
function answerMouse(element, view) {   // without Ctrl the wheel moves sideways alone, and else scrolls the page
  element.addEventListener('dblclick', event => {
    getSelection().removeAllRanges();
    view.zoom(CLOSER, spotIn(element, event));
  });
  element.addEventListener('wheel', event => {
    const isZoom = event.ctrlKey || event.metaKey;
    if (!isZoom && (view.isWhole || Math.abs(event.deltaX) <= Math.abs(event.deltaY))) return;
    event.preventDefault();
    if (isZoom) view.zoom(Math.exp(Math.sign(event.deltaY) * .25), spotIn(element, event));
    else view.move([event.deltaX, 0]);
  }, {passive: false});
}

// ---- Keys and buttons. A key that changes nothing is left to the page, which may scroll.
const STRIDE = 40;
const viewKeys = view => ({'+': () => view.zoom(CLOSER), '=': () => view.zoom(CLOSER), '-': () => view.zoom(WIDER),
  Home: () => { view.showAll(); }, PageUp: () => view.turn(-.5), PageDown: () => view.turn(.5), ArrowLeft: () => view.move([-STRIDE, 0]),
  ArrowRight: () => view.move([STRIDE, 0]), ArrowUp: () => view.move([0, -STRIDE]), ArrowDown: () => view.move([0, STRIDE])});
function answerViewKeys(element, view, others) {   // `others` are keys of this view alone, and go first
  const acts = {...viewKeys(view), ...others};
  element.addEventListener('keydown', event => {
    if (!acts[event.key] || event.ctrlKey || event.metaKey || event.altKey) return;
    if (acts[event.key]() !== false) event.preventDefault();
  });
}
function answerViewButtons(name, view) {
  const acts = {closer: () => view.zoom(CLOSER), wider: () => view.zoom(WIDER), all: () => view.showAll()};
  for (const [id, act] of Object.entries(acts)) $(name + '-' + id).addEventListener('click', act);
}
"#;
