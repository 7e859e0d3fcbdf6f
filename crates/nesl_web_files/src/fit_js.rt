//! `page/fit.js`, by scripts/page_files.

/// The text.
pub static TEXT: &str =
    r##"/** How costs grow with n: slopes by least squares, and the kind of growth where one fits clearly. */

/** Functions of n that costs grow like. */
const KINDS = [
  ["log n", Math.log2], ["n", (n) => n], ["n log n", (n) => n * Math.log2(n)], ["n²", (n) => n ** 2],
  ["n³", (n) => n ** 3], ["2ⁿ", (n) => 2 ** n],
];
const CLOSE = 0.02; // the greatest mean deviation of a clear fit, as a share of all that is between the ends
const CLEARER = 4; // times the next best fit deviates

const mean = (numbers) => numbers.reduce((sum, number) => sum + number, 0) / numbers.length;

/** The line through points by least squares: its slope, and its mean deviation as a share of their height. */
function line(points) {
  const [middle, level] = [0, 1].map((at) => mean(points.map((point) => point[at])));
  const wide = mean(points.map(([x]) => (x - middle) ** 2));
  const slope = mean(points.map(([x, y]) => (x - middle) * (y - level))) / wide;
  const off = Math.sqrt(mean(points.map(([x, y]) => (y - level - slope * (x - middle)) ** 2)));
  const heights = points.map(([, y]) => y);
  return { slope, off: off / (Math.max(...heights) - Math.min(...heights) || 1) };
}

/** The later half of points that are in order of n. */
export const lastHalf = (points) => points.slice(-Math.max(2, Math.ceil(points.length / 2)));

/** The slope over the last half, on axes that are logarithmic or not; null where there are too few points. */
export function slopeOf(points, [isLogN, isLogTold]) {
  const half = lastHalf(points.filter(([n, told]) => (n > 0 || !isLogN) && (told > 0 || !isLogTold)));
  if (half.length < 2) return null;
  return line(half.map(([n, told]) => [isLogN ? Math.log2(n) : n, isLogTold ? Math.log2(told) : told])).slope;
}

/** The kind of growth over the last half, or "" where no kind or more than one fits. */
export function kindOf(points) {
  const half = lastHalf(points.filter(([n]) => n > 1));
  if (half.length < 4) return "";
  if (half.every(([, told]) => told === half[0][1])) return "not at all";
  const fits = KINDS.map(([name, of]) => ({ name, ...line(half.map(([n, told]) => [of(n), told])) }))
    .filter(({ slope, off }) => slope > 0 && Number.isFinite(off)).sort((one, other) => one.off - other.off);
  const [best, next] = fits;
  const isClear = best && best.off < CLOSE && (!next || next.off > Math.max(CLEARER * best.off, CLOSE / 4));
  return isClear ? best.name : "";
}

/** What a row of measurements will cost in all, from those at the least n: the power that they grow by goes on. */
export function foreseen(points, numbers) {
  const [one, last] = points.filter(([n, told]) => n > 0 && told > 0).slice(-2);
  if (!last) return null;
  const power = Math.max(0, Math.log(last[1] / one[1]) / Math.log(last[0] / one[0]));
  return numbers.reduce((sum, n) => sum + last[1] * (Math.max(n, 1) / last[0]) ** power, 0);
}
"##;
