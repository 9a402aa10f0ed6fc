// Each part in turn, over scratch of their own: deg has 1 + its ends so far for a vertex, own the vertex of an
// oriented word. The two are lent apart: a field of a struct that is lent as `&mut`, handed on as a slice that is read, keeps
// no clause on its elements.
ghost use Rattle.std.specs.Prelude.{◌≡◌, ◌+◌, ◌-◌, ◌*◌, ◌^◌, ◌≤◌, ◌<◌, ℕ, length, get_or, drop, Ok};
ghost use Rattle.graph.specs.Limits.{most_vertices, most_edges};
ghost use Rattle.image_check.specs.Checks.{bounds, part_limits};
ghost use Rattle.image_check.specs.Scratch.{NoneAbove, edge_good, edge_ends, edge_owned};
ghost use Rattle.image_check.specs.Scratch.{vertex_run, vertex_marks, edge_run, edge_degrees, edge_owners};
ghost use Rattle.image_check.specs.Scratch.{degree_run, list_run, list_owners, incidence_run, scratch_run};
ghost use Rattle.image_check.specs.Scratch.{Sizes, parts, Ran};

use crate::BadImage;
use crate::records::{good_fields, good_vertex, numbered};
use graph::{MOST_EDGES, MOST_VERTICES};
use image::layout::{EDGE, HEADER, VERTEX};
use lists::get;
use lists::words::put;

// Scratch for the limits of a run: a word for each number from 0 on, and two for each edge.
const VERTEX_SCRATCH: usize = MOST_VERTICES as usize + 1;

const EDGE_SCRATCH: usize = 2 * (MOST_EDGES as usize + 1);

// Scratch for capacities of up to so many.
const SMALL: u32 = 127;

const SMALL_VERTEX_SCRATCH: usize = SMALL as usize + 1;

const SMALL_EDGE_SCRATCH: usize = 2 * (SMALL as usize + 1);

/// What the records of an image may name: numbers of vertices and of edges up to these, and so many types.
#[derive(Clone, Copy, Debug, PartialEq, Eq)]
pub struct Limits {
    pub vertices: u32,
    pub edges: u32,
    pub types: u32,
}

/// The parts of an image whose header is sound, and how many words a vertex record has.
#[derive(Clone, Copy, Debug, PartialEq, Eq)]
pub struct Parts<'p> {
    pub vertices: &'p [u32],
    pub edges: &'p [u32],
    pub incidences: &'p [u32],
    pub size: usize,
    ghost sizes: { Sizes size vertices.now edges.now incidences.now },
}

/// How many words of an edge record are sound.
fn edge_good(edge: &[u32], deg: &[u32], own: &[u32], limits: Limits) -> u32
    requires six { length edge.now ≡ 6 }
    requires room { 2 * limits.edges < length own.now }
    ensures { result ≡ edge_good (part_limits limits.edges limits.types) deg.now own.now edge.now }
{
    let number = edge[0];
    if !numbered(limits.edges, number) {
        return 0;
    }
    if own[2 * number as usize] != 0 {
        return 0;
    }
    if get(deg, edge[1] as usize) == 0 {
        return 1;
    }
    if get(deg, edge[2] as usize) == 0 {
        return 2;
    }
    good_fields(limits.types, edge[3], edge[4], edge[5])
}

/// Counts both ends of an edge record, and enters its two words with their vertices.
fn enter(edge: &[u32], deg: &mut [u32], own: &mut [u32])
    requires six { length edge.now ≡ 6 }
    requires number { 2 * get_or edge.now 0 0 + 1 < length own.old }
    requires alpha { get_or edge.now 1 0 < length deg.old }
    requires omega { get_or edge.now 2 0 < length deg.old }
    requires fits { NoneAbove (2 ^ 32 - 3) deg.old }
    ensures ends { deg.new ≡ edge_ends edge.now 0 deg.old }
    ensures owners { own.new ≡ edge_owned edge.now 0 own.old }
{
    let alpha = edge[1];
    let omega = edge[2];
    deg[alpha as usize] += 1;
    deg[omega as usize] += 1;
    let word = 2 * edge[0] as usize;
    own[word] = alpha;
    own[word + 1] = omega;
}

/// How many of the d words from at on are v's. Each word found is taken from v.
fn list(part: &[u32], at: usize, d: u32, v: u32, own: &mut [u32]) -> u32
    requires { at ≤ length part.now }
    ensures { (result ≡ list_run v d own.old (drop at part.now))
        × (result ≡ d → own.new ≡ list_owners d own.old (drop at part.now)) }
{
    let most = (d as usize).min(part.len() - at);
    for k in 0..most {
        let w = part[at + k] as usize;
        if get(own, w) != v {
            return k as u32;
        }
        put(own, w, 0);
    }
    most as u32
}

impl<'p> Parts<'p> {
    /// The vertex records: marks each number with 1. Refuses the first word that cannot follow.
    fn check_vertices(&self, limits: Limits, deg: &mut [u32]) -> Result<(), BadImage>
        requires room { limits.vertices < length deg.old }
        ensures verdict { (count : ℕ) → self.now.size * count ≡ length self.now.vertices.now
            → result ≡ vertex_run self.now.size (part_limits limits.vertices limits.types) deg.old count self.now.vertices.now 6 }
        ensures below { NoneAbove 1 deg.old → NoneAbove 1 deg.new }
        ensures marks { (count : ℕ) → self.now.size * count ≡ length self.now.vertices.now → result ≡ Ok tt
            → deg.new ≡ vertex_marks self.now.size deg.old count self.now.vertices.now }
    {
        for (i, record) in self.vertices.chunks_exact(self.size).enumerate() {
            let number = record[0] as usize;
            let good = good_vertex(
                limits.vertices,
                limits.types,
                get(deg, number) == 0,
                record[0],
                record[1],
            );
            if good < 3 {
                let at = HEADER + self.size * i;
                return Err(BadImage::Record(at as u32 + good));
            }
            deg[number] = 1;
        }
        Ok(())
    }

    /// The edge records: counts their ends and enters their words. Refuses the first word that cannot follow.
    fn check_edges(&self, limits: Limits, deg: &mut [u32], own: &mut [u32]) -> Result<(), BadImage>
        requires room { 2 * limits.edges + 1 < length own.old }
        requires marked { NoneAbove 1 deg.old }
        ensures verdict { (count : ℕ) → 6 * count ≡ length self.now.edges.now
            → result ≡ edge_run (part_limits limits.edges limits.types) deg.old own.old count self.now.edges.now
            (6 + length self.now.vertices.now) }
        ensures ends { (count : ℕ) → 6 * count ≡ length self.now.edges.now → result ≡ Ok tt
            → deg.new ≡ edge_degrees deg.old count self.now.edges.now }
        ensures owners { (count : ℕ) → 6 * count ≡ length self.now.edges.now → result ≡ Ok tt
            → own.new ≡ edge_owners own.old count self.now.edges.now }
    {
        for (i, record) in self.edges.chunks_exact(EDGE).enumerate() {
            let good = edge_good(record, deg, own, limits);
            if good < 6 {
                let first = HEADER + self.vertices.len() + EDGE * i;
                return Err(BadImage::Record(first as u32 + good));
            }
            enter(record, deg, own);
        }
        Ok(())
    }

    /// The degrees of the vertex records, where they have one: deg has 1 more than each.
    fn check_degrees(&self, deg: &[u32]) -> Result<(), BadImage>
        ensures { (count : ℕ) → self.now.size * count ≡ length self.now.vertices.now
            → result ≡ degree_run self.now.size deg.now count self.now.vertices.now 6 }
    {
        if self.size < VERTEX {
            return Ok(());
        }
        for (i, record) in self.vertices.chunks_exact(VERTEX).enumerate() {
            let ends = get(deg, record[0] as usize).saturating_sub(1);
            if record[3] != ends {
                let at = HEADER + VERTEX * i;
                return Err(BadImage::Record(at as u32 + 3));
            }
        }
        Ok(())
    }

    /// The lists of the vertex records. Refuses the first word that is not the vertex's, and a word behind the last list.
    fn check_lists(&self, deg: &[u32], own: &mut [u32]) -> Result<(), BadImage>
        ensures { (count : ℕ) → self.now.size * count ≡ length self.now.vertices.now
            → result ≡ incidence_run self.now.size deg.now own.old count self.now.vertices.now self.now.incidences.now
            (6 + length self.now.vertices.now + length self.now.edges.now) }
    {
        let mut at = 0;
        for record in self.vertices.chunks_exact(self.size) {
            let degree = get(deg, record[0] as usize).saturating_sub(1);
            let good = list(self.incidences, at, degree, record[0], own);
            if good < degree {
                let bad = HEADER + self.vertices.len() + self.edges.len() + at;
                return Err(BadImage::Incidence(bad as u32 + good));
            }
            at += degree as usize;
        }
        if at < self.incidences.len() {
            let bad = HEADER + self.vertices.len() + self.edges.len() + at;
            return Err(BadImage::Incidence(bad as u32));
        }
        Ok(())
    }

    /// The four passes; deg comes with 0 alone, and so does own where the verdict is to be that of the words.
    fn in_turn(&self, limits: Limits, deg: &mut [u32], own: &mut [u32]) -> Result<(), BadImage>
        requires vertices { limits.vertices < length deg.old }
        requires edges { 2 * limits.edges + 1 < length own.old }
        requires clear { NoneAbove 0 deg.old }
        ensures { (v e : ℕ) → self.now.size * v ≡ length self.now.vertices.now → 6 * e ≡ length self.now.edges.now
            → result ≡ scratch_run deg.old own.old (bounds limits.vertices limits.edges limits.types)
            (parts self.now.size v e self.now.vertices.now self.now.edges.now self.now.incidences.now) }
    {
        self.check_vertices(limits, deg)?;
        self.check_edges(limits, deg, own)?;
        self.check_degrees(deg)?;
        self.check_lists(deg, own)
    }

    /// The four passes over scratch for numbers below V and oriented words below E.
    fn with_scratch<const V: usize, const E: usize>(&self, limits: Limits) -> Result<(), BadImage>
        requires addressed { (V ≤ 2 ^ 32) × (E ≤ 2 ^ 32) }
        requires vertices { limits.vertices < V }
        requires edges { 2 * limits.edges + 1 < E }
        ensures { (v e : ℕ) → self.now.size * v ≡ length self.now.vertices.now → 6 * e ≡ length self.now.edges.now
            → Ran (bounds limits.vertices limits.edges limits.types)
            (parts self.now.size v e self.now.vertices.now self.now.edges.now self.now.incidences.now) result }
    {
        let mut deg = [0u32; V];
        let mut own = [0u32; E];
        self.in_turn(limits, &mut deg, &mut own)
    }

    /// The four passes, over scratch with room for the limits: the larger one takes longer to clear than a small image
    /// to check.
    pub fn check(&self, limits: Limits) -> Result<(), BadImage>
        requires vertices { limits.vertices ≤ most_vertices }
        requires edges { limits.edges ≤ most_edges }
        ensures { (v e : ℕ) → self.now.size * v ≡ length self.now.vertices.now → 6 * e ≡ length self.now.edges.now
            → Ran (bounds limits.vertices limits.edges limits.types)
            (parts self.now.size v e self.now.vertices.now self.now.edges.now self.now.incidences.now) result }
    {
        if limits.vertices <= SMALL && limits.edges <= SMALL {
            self.with_scratch::<SMALL_VERTEX_SCRATCH, SMALL_EDGE_SCRATCH>(limits)
        } else {
            self.with_scratch::<VERTEX_SCRATCH, EDGE_SCRATCH>(limits)
        }
    }
}
