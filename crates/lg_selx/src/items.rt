// The items of a node, and the target that has them.

ghost use Rattle.std.specs.Prelude.{◌≡◌, ◌<◌, ◌≤◌, [], true, length};
ghost use Rattle.lg_op.specs.Nodes.{InForm};
ghost use Rattle.lg_x86.specs.Spelling.{IsInstr, spelling};
ghost use Rattle.lg_selx.specs.Code.{x86_code};
ghost use Rattle.lg_selx.specs.Items.{site_items, IsGiven};
ghost use Rattle.lg_selx.specs.Selected.{needs, is_store};
ghost use Rattle.lg_sel.specs.Selected.{AreFirst, is_pusharg};
ghost use Rattle.lg_selx.specs.Stores.{x86_stores};
ghost use Rattle.lg_selx_values.specs.Items.{words_in};
ghost use Rattle.lg_carry.specs.Values.Parts.{HaveSlots};

use crate::control::put_control;
use crate::memory::{put_argument, put_getarg, put_load, put_next_argument, put_store};
use crate::temporaries;
use lg_base::Target;
use lg_op::{ControlOp, Node, Op, PlainOp};
use lg_sel::operands::staged_count;
use lg_sel::{Backend, Items, Reach, Site};
use lg_selx_values::{Item, value_items};
use lg_temp::Needs;

// Appends the items of a node with a reach to none. Its code begins at a place of the buffer.
fn put_items(reach: Reach, node: &Node, site: &Site, place: u32, items: &mut Items<Item>)
    requires formed { InForm node.now }
    requires few { length site.now.choices ≤ 2 }
    requires stores { is_store node.now.op ≡ true → length site.now.choices ≤ 1 }
    requires slots { HaveSlots site.now.choices }
    requires staged { is_pusharg node.now.op ≡ true → AreFirst site.now.staged.arguments }
    requires empty { items.old ≡ [] }
    ensures { items.new ≡ site_items reach node.now site.now place }
{
    let Site {
        frame,
        choices,
        staged,
    } = site;
    match node.op {
        Op::Binary(_, _)
        | Op::Wide(_, _)
        | Op::Unary(_)
        | Op::Plain(PlainOp::Movi | PlainOp::VaStart)
        | Op::Retval(_) => value_items(node, frame.size, choices, items),
        Op::Load(t, at) => put_load(node, frame.size, t, at, items),
        Op::Store(t, at) => put_store(node, choices, t, at, items),
        Op::Getarg(t) => put_getarg(node, t, items),
        Op::Plain(PlainOp::VaArg) => put_next_argument(node, items),
        Op::Control(ControlOp::Pusharg, _) => {
            put_argument(node, frame.size, staged_count(staged), items)
        }
        _ => put_control(
            node,
            frame.size,
            frame.homes,
            frame.saved,
            place,
            reach,
            items,
        ),
    }
}

/// x86-64 as a target: `lg_sel::select`, `lg_sel::append_node` and the loop of lg_asm take it as a type.
pub struct X86_64;

impl Backend for X86_64 {
    type Item = Item;

    type List = Items<Item>;

    ghost code = { x86_code };

    ghost needed = { needs };

    ghost spelling = { spelling };

    ghost fits = { IsInstr };

    ghost is_store = { x86_stores };

    ghost is_given = { IsGiven };

    ghost items_of = { site_items };

    fn target() -> Target {
        Target::X86_64
    }

    fn what_holds() {}

    fn needs(node: &Node) -> Needs {
        temporaries::needs(node)
    }

    fn put(reach: Reach, node: &Node, site: &Site, place: u32, items: &mut Items<Item>)
        requires given { IsGiven node.now site.now }
        requires empty { items.old ≡ [] }
        ensures made { items.new ≡ site_items reach node.now site.now place }
        ensures few { words_in items.new ≤ 64 }
    {
        put_items(reach, node, site, place, items);
        // They are few.
        let _list = items.as_slice();
    }
}
