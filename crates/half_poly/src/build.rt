//! The cube of which polyhedra are cut.

ghost use Rattle.std.specs.Prelude.{◌≡◌, ◌<◌, Some, IfOk, map, length, get_or};
ghost use Rattle.exact_geom.specs.Planes.{IsPlane};
ghost use Rattle.half_arena.specs.Slots.{contents, put, IsLive};
ghost use Rattle.cube_laws.specs.CubeLinks.{corners, centre, origins, twins, nexts};
ghost use Rattle.half_poly.specs.Puts.{PutBelow, AreLive, WrittenBelow};
ghost use Rattle.half_poly.specs.Shapes.{IsShape, sides_of};
ghost use Rattle.half_poly.specs.Walls.{wall_at, cube_face, unbegun_walls, cube_edge, cube_wall, cube_sides};

use crate::links::{Edges, Face, Faces, HalfEdge, Vertices, put_in, write};
use crate::poly::{Poly, of_shape};
use crate::shape::Shape;
use exact_geom::uncounted::meet;
use exact_geom::{HVertex, Plane, Point};
use half_arena::{Arena, EdgeId, FaceId, SlotId, VertId};
use std::alloc::{AllocError, Global};

// How far the cube reaches in each direction.
const REACH: i32 = 4352;

// The tag of its first face.
const FIRST_TAG: u32 = 0xFFFF_FFFA;

fn at(x: i32, y: i32, z: i32) -> Point
    ensures { result ≡ record { x = x; y = y; z = z } }
{
    Point { x, y, z }
}

// The plane of three points that have one.
fn plane_through(p0: Point, p1: Point, p2: Point) -> Option<Plane>
    requires { IsPlane (record { p0 = p0; p1 = p1; p2 = p2 }) }
    ensures { result ≡ Some (record { p0 = p0; p1 = p1; p2 = p2 }) }
{
    Plane::of(p0, p1, p2).ok()
}

// The walls: right, left, far, near, top, bottom.
fn wall(number: usize) -> Option<Plane>
    ensures { number < 6 → result ≡ Some (wall_at number) }
{
    match number {
        0 => plane_through(at(REACH, 1, 0), at(REACH, 0, 0), at(REACH, 0, 1)),
        1 => plane_through(at(-REACH, 0, 1), at(-REACH, 0, 0), at(-REACH, 1, 0)),
        2 => plane_through(at(0, REACH, 1), at(0, REACH, 0), at(1, REACH, 0)),
        3 => plane_through(at(1, -REACH, 0), at(0, -REACH, 0), at(0, -REACH, 1)),
        4 => plane_through(at(1, 0, REACH), at(0, 0, REACH), at(0, 1, REACH)),
        _ => plane_through(at(0, 1, -REACH), at(0, 0, -REACH), at(1, 0, -REACH)),
    }
}

// Vertex number 4 a + 2 b + c lies on the walls a, 2 + b and 4 + c.
fn corner(number: usize) -> Option<HVertex>
    ensures { number < 8 → result ≡ Some (get_or corners number centre) }
{
    let a = wall(number / 4 % 2)?;
    let b = wall(2 + number / 2 % 2)?;
    let c = wall(4 + number % 2)?;
    meet(&a, &b, &c)
}

// The corners round each wall, clockwise seen from in front: four for each of the walls.
const ROUND: [usize; 24] = [
    0, 1, 3, 2, // right
    4, 6, 7, 5, // left
    0, 4, 5, 1, // far
    2, 3, 7, 6, // near
    0, 2, 6, 4, // top
    1, 5, 7, 3, // bottom
];

// The half-edge that leads back, of each of those from corner to corner.
const BACK: [usize; 24] = [
    11, 23, 12, 16, // right
    18, 14, 21, 9, // left
    19, 7, 20, 0, // far
    2, 22, 5, 17, // near
    3, 15, 4, 8, // top
    10, 6, 13, 1, // bottom
];

// The corner where a half-edge begins.
fn corner_of(edge: usize) -> usize
    ensures { edge < 24 → result ≡ get_or origins edge 0 }
{
    if edge < 24 { ROUND[edge] } else { 0 }
}

// The half-edge that leads back.
fn back_of(edge: usize) -> usize
    ensures { edge < 24 → result ≡ get_or twins edge 0 }
{
    if edge < 24 { BACK[edge] } else { 0 }
}

// What comes next to a half-edge: they stand four by four.
fn next_of(edge: usize) -> usize
    ensures { edge < 24 → result ≡ get_or nexts edge 0 }
{
    if edge % 4 == 3 { edge - 3 } else { edge + 1 }
}

// Puts the values in, in order, and gives their numbers.
fn put_all<T: Copy + Drop, Id: SlotId>(
    alloc: Global,
    arena: &mut Arena<T, Id>,
    values: &[T],
) -> Result<Vec<Id>, AllocError>
    ensures { IfOk result (λ ids. PutBelow (contents arena.old) values.now (contents arena.new) (map Id.place_of ids.items) (length values.now)) }
{
    let mut ids = Vec::new(alloc);
    for place in 0..values.len() {
        ids.push(put_in(arena, values[place])?)?;
    }
    Ok(ids)
}

// Puts the corners in, in order, and gives their numbers.
fn add_corners(alloc: Global, vertices: &mut Vertices) -> Result<Vec<VertId>, AllocError>
    ensures { IfOk result (λ ids. PutBelow (contents vertices.old) corners (contents vertices.new) (map (λ id. id.0) ids.items) 8) }
{
    let mut ids = Vec::new(alloc);
    for number in 0..8usize {
        let Some(vertex) = corner(number) else {
            return Ok(ids);
        };
        ids.push(put_in(vertices, vertex)?)?;
    }
    Ok(ids)
}

// The face of a wall that begins at this half-edge.
fn face_of(number: usize, first: EdgeId) -> Option<Face>
    ensures { number < 6 → result ≡ Some (cube_face number first) }
{
    Some(Face {
        plane: wall(number)?,
        tag: FIRST_TAG + (number % 6) as u32,
        first,
    })
}

// Puts the walls in, in order, and gives their numbers. Where they begin is written later.
fn add_walls(alloc: Global, faces: &mut Faces) -> Result<Vec<FaceId>, AllocError>
    ensures { IfOk result (λ ids. PutBelow (contents faces.old) unbegun_walls (contents faces.new) (map (λ id. id.0) ids.items) 6) }
{
    let mut ids = Vec::new(alloc);
    for number in 0..6usize {
        let Some(face) = face_of(number, EdgeId::at(0)) else {
            return Ok(ids);
        };
        ids.push(put_in(faces, face)?)?;
    }
    Ok(ids)
}

// The element at a place, if there is one, or else this one.
fn nth<Id: Copy>(ids: &[Id], place: usize, none: Id) -> Id
    ensures { result ≡ get_or ids.now place none }
{
    match ids.get(place) {
        Some(id) => *id,
        None => none,
    }
}

// The half-edge with this number.
fn half_edge(edge: usize, corners: &[VertId], walls: &[FaceId], edges: &[EdgeId]) -> HalfEdge
    ensures { edge < 24 → result ≡ cube_edge corners.now walls.now edges.now edge }
{
    HalfEdge {
        origin: nth(corners, corner_of(edge), VertId::at(0)),
        face: nth(walls, edge / 4, FaceId::at(0)),
        twin: nth(edges, back_of(edge), EdgeId::at(0)),
        next: nth(edges, next_of(edge), EdgeId::at(0)),
    }
}

// Writes the half-edges under their numbers.
fn link_edges(corners: &[VertId], walls: &[FaceId], ids: &[EdgeId], edges: &mut Edges)
    requires live { AreLive (map (λ id. id.0) ids.now) (contents edges.old) 24 }
    ensures { WrittenBelow (map (λ id. id.0) ids.now) (cube_edge corners.now walls.now ids.now) (contents edges.new) 24 }
{
    for edge in 0..24usize {
        let id = nth(ids, edge, EdgeId::at(0));
        write(edges, id, half_edge(edge, corners, walls, ids));
    }
}

// Writes a wall under its number, with the half-edge where it begins.
fn link_wall(ids: &[EdgeId], walls: &[FaceId], number: usize, faces: &mut Faces)
    ensures { number < 6 → IsLive faces.old (get_or walls.now number (record { 0 = 0 })).0 →
        contents faces.new ≡ put (contents faces.old) (get_or walls.now number (record { 0 = 0 })).0 (Some (cube_wall ids.now number)) }
{
    let first = nth(ids, 4 * (number % 6), EdgeId::at(0));
    if let Some(face) = face_of(number, first) {
        write(faces, nth(walls, number, FaceId::at(0)), face);
    }
}

// Writes the walls under their numbers, each with the half-edge where it begins.
fn link_walls(ids: &[EdgeId], walls: &[FaceId], faces: &mut Faces)
    requires live { AreLive (map (λ id. id.0) walls.now) (contents faces.old) 6 }
    ensures { WrittenBelow (map (λ id. id.0) walls.now) (cube_wall ids.now) (contents faces.new) 6 }
{
    for number in 0..6usize {
        link_wall(ids, walls, number, faces);
    }
}

// The arenas of the cube.
fn cube_shape(alloc: Global) -> Result<Shape, AllocError>
    ensures shape { IfOk result (λ s. IsShape (contents s.vertices) (contents s.edges) (contents s.faces) s.order.items) }
    ensures sides { IfOk result (λ s. sides_of (contents s.faces) s.order.items ≡ cube_sides) }
{
    let mut vertices = Arena::new(alloc);
    let mut edges = Arena::new(alloc);
    let mut faces = Arena::new(alloc);
    let corners = add_corners(alloc, &mut vertices)?;
    let walls = add_walls(alloc, &mut faces)?;
    let unlinked = HalfEdge {
        origin: VertId::at(0),
        face: FaceId::at(0),
        twin: EdgeId::at(0),
        next: EdgeId::at(0),
    };
    let ids = put_all(alloc, &mut edges, &[unlinked; 24])?;
    link_edges(&corners, &walls, &ids, &mut edges);
    link_walls(&ids, &walls, &mut faces);
    Ok(Shape {
        vertices,
        edges,
        faces,
        order: walls,
    })
}

impl Poly {
    /// The cube from -4352 to 4352, its faces right, left, far, near, top and bottom with the tags 0xFFFFFFFA to 0xFFFFFFFF.
    pub fn cube(alloc: Global) -> Result<Poly, AllocError>
        ensures cube { IfOk result (λ poly. poly ≡ cube_sides) }
    {
        of_shape(alloc, cube_shape(alloc)?)
    }
}
