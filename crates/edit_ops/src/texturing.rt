//! `tex`: the texture of one face.

ghost use Rattle.std.specs.Prelude.{◌≡◌, ◌+◌, ◌<◌, nat_lt, length, take, drop, ◌++◌, ◌∷◌, Some, None, IfOk, IfErr, OnOk};
ghost use Rattle.cmd_text.specs.Kept.{KeepsSurface};
ghost use Rattle.map_laws.specs.Reshaping.{HasPairs};
ghost use Rattle.map_model.specs.Tree.{whole, at, faces_of, with_faces};
ghost use Rattle.map_model.specs.Edits.{swap};
ghost use Rattle.map_model.specs.Commands.{IsGood};
ghost use Rattle.map_model.specs.Own.{change_at, next_surface, retextured};
ghost use Rattle.map_model.specs.Promises.{Plans};
ghost use Rattle.map_model.specs.Rows.{first};
ghost use Rattle.tree_node.specs.Held.{IsMap};
ghost use Rattle.tree_ops.specs.Faults.{RefusesRightly};
ghost use Rattle.edit_ops.specs.Texturing.{IsTexOf, face_rows, retextured_face};

use cmd_text::{Command, Refusal, Reply, SurfaceWords};
use exact_geom::Rows;
use fixed_num::{Micro, Nano, Pico, Text};
use map_nodes::{Body, Node, NodeId};
use std::alloc::{AllocError, Global};
use tree_node::{Change, Map};
use tree_ops::{OpFault, Planned, Settings};
use uv_lock::{Face, StandardTex, Surface, Tex, ValveTex};

/// Plans `tex`: the first refusal of the one order, or a change of the one brush, with the reply. The map after the change is
/// one again. Nothing is said where there is no memory for it.
pub(crate) fn plan_tex(
    alloc: Global,
    map: &Map,
    set: &Settings,
    c: &Command,
    id: NodeId,
    face: u32,
) -> Result<Planned, OpFault>
    requires own { IsTexOf id face c.now }
    requires good { IsGood c.now }
    ensures planned { IfOk result (λ p. Plans set.now (whole map.now) c.now p.change p.reply) }
    ensures sound { IfOk result (λ p. IsMap (swap (whole map.now) p.change)) }
    ensures refused { IfErr result (RefusesRightly set.now (whole map.now) c.now) }
{
    map.is_map();
    set.has_material();
    has_pairs(c);
    let old = node_with_face(map, id, face)?;
    let new = retextured_node(alloc, old, face as usize, c)?;
    let mut change = Change::new(alloc, map);
    change.put(id, Some(new))?;
    change.tighten(map);
    let reply = Reply::Ok;
    Ok(Planned { change, reply })
}

// A texture has two offsets and two scales.
fn has_pairs(c: &Command)
    ensures { HasPairs c.now }
{
    match c {
        Command::Tex { off, scale, .. } => are_pairs(*off, *scale),
        _ => {}
    }
}

fn are_pairs(off: [Pico; 2], scale: [Nano; 2])
    ensures off { length off ≡ 2 }
    ensures scale { length scale ≡ 2 }
{}

// The node with this face, or the first of the rows that refuses it.
fn node_with_face(map: &Map, id: NodeId, face: u32) -> Result<&Node, Refusal>
    ensures node { IfOk result (λ node. at (whole map.now) id ≡ Some node.now) }
    ensures passes { IfOk result (λ _. first (face_rows (whole map.now) id face) ≡ None) }
    ensures refused { IfErr result (λ refusal. first (face_rows (whole map.now) id face) ≡ Some refusal) }
    ensures face { IfOk result (λ node. face < length (faces_of node.now)) }
{
    let Some(node) = map.get(id) else {
        return Err(Refusal::NoNode(id.number()));
    };
    if !has_face(node, face) {
        return Err(Refusal::WrongKind(id.number()));
    }
    if map.is_in_frozen(id) {
        return Err(Refusal::LockedLayer(id.number()));
    }
    Ok(node)
}

fn has_face(node: &Node, face: u32) -> bool
    ensures { result ≡ nat_lt face (length (faces_of node.now)) }
{
    match node {
        Node::Brush { body, .. } => (face as usize) < body.faces().len(),
        _ => false,
    }
}

// The brush with another texture on one face.
fn retextured_node(alloc: Global, node: &Node, face: usize, c: &Command) -> Result<Node, AllocError>
    requires there { face < length (faces_of node.now) }
    requires good { IsGood c.now }
    ensures { IfOk result (λ new. new ≡ with_faces (change_at face (retextured_face c.now) (faces_of node.now)) node.now) }
{
    match node {
        Node::Brush { parent, mark, body } => Ok(Node::Brush {
            parent: *parent,
            mark: *mark,
            body: retextured_body(alloc, body, face, c)?,
        }),
        _ => unreachable!(),
    }
}

fn retextured_body(alloc: Global, body: &Body, face: usize, c: &Command) -> Result<Body, AllocError>
    requires there { face < length body.now }
    requires good { IsGood c.now }
    ensures { IfOk result (λ new. new ≡ change_at face (retextured_face c.now) body.now) }
{
    let old = body.faces();
    let new = new_face(alloc, &old[face], c)?;
    let faces = with_face(alloc, old, face, new)?;
    let solid = body.solid().copy(alloc)?;
    Ok(Body::of(faces, solid))
}

// The face with the texture of the command.
fn new_face(alloc: Global, old: &Face, c: &Command) -> Result<Face, AllocError>
    requires { IsGood c.now }
    ensures { IfOk result (λ face. face ≡ retextured_face c.now old.now) }
{
    match c {
        Command::Tex {
            name,
            off,
            rotation,
            scale,
            surface,
            ..
        } => Ok(Face {
            plane: old.plane,
            material: Text::of(alloc, name.bytes())?,
            tex: retextured(old.tex, *off, *rotation, *scale, *surface),
        }),
        _ => old.copy(alloc),
    }
}

// The offsets, the rotation, the scales and the surface numbers are new; axes stay.
fn retextured(
    tex: Tex,
    off: [Pico; 2],
    rotation: Micro,
    scale: [Nano; 2],
    words: SurfaceWords,
) -> Tex
    requires { KeepsSurface words }
    ensures { result ≡ retextured off rotation scale words tex }
{
    match tex {
        Tex::Standard(old) => {
            let surface = next_surface(words, old.surface);
            Tex::Standard(StandardTex {
                off,
                rotation,
                scale,
                surface,
            })
        }
        Tex::Valve(old) => {
            let surface = next_surface(words, old.surface);
            Tex::Valve(ValveTex {
                off,
                rotation,
                scale,
                surface,
                ..old
            })
        }
    }
}

fn next_surface(words: SurfaceWords, old: Option<Surface>) -> Option<Surface>
    requires { KeepsSurface words }
    ensures { result ≡ next_surface words old }
{
    match words {
        SurfaceWords::Stay => old,
        SurfaceWords::Out => None,
        SurfaceWords::Set {
            contents,
            flags,
            value,
        } => Some(Surface {
            contents,
            flags,
            value,
        }),
    }
}

// The faces with another one at a place.
fn with_face(
    alloc: Global,
    faces: &[Face],
    place: usize,
    new: Face,
) -> Result<Rows<Face>, AllocError>
    requires { place < length faces.now }
    ensures { IfOk result (λ list. list ≡ take place faces.now ++ new ∷ drop (place + 1) faces.now) }
{
    let mut list = Vec::with_capacity(alloc, faces.len())?;
    push_copies(alloc, &mut list, &faces[..place])?;
    list.push(new)?;
    push_copies(alloc, &mut list, &faces[place + 1..])?;
    Ok(Rows::of(list))
}

fn push_copies(alloc: Global, list: &mut Vec<Face>, faces: &[Face]) -> Result<(), AllocError>
    ensures { OnOk result (list.new.items ≡ list.old.items ++ faces.now) }
{
    for face in faces {
        list.push(face.copy(alloc)?)?;
    }
    Ok(())
}
