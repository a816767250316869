// The items of a node, and the target that has them.

ghost use Rattle.std.specs.Prelude.{◌≡◌, ◌<◌, ◌≤◌, [], true, length};
ghost use Rattle.lg_op.specs.Nodes.{InForm};
ghost use Rattle.lg_a64.specs.Spelling.{IsInstr, spelling};
ghost use Rattle.lg_sela.specs.Code.{a64_code};
ghost use Rattle.lg_sela.specs.Items.{site_items, IsGiven};
ghost use Rattle.lg_sela.specs.Selected.{needs};
ghost use Rattle.lg_sel.specs.Selected.{AreFirst, is_pusharg};
ghost use Rattle.lg_sela.specs.Stores.{a64_stores};
ghost use Rattle.lg_sela_values.specs.Items.{words_in};
ghost use Rattle.lg_carry.specs.Values.Parts.{HaveSlots};

use crate::control::put_control;
use crate::memory::{put_argument, put_getarg, put_load, put_next_argument, put_store};
use crate::temporaries;
use lg_base::Target;
use lg_op::{ControlOp, Node, Op, PlainOp};
use lg_sel::operands::staged_count;
use lg_sel::{Backend, Items, Reach, Site};
use lg_sela_values::{Item, value_items};
use lg_temp::Needs;

// Appends the items of a node with a reach to none. Its code begins at a place of the buffer.
fn put_items(reach: Reach, node: &Node, site: &Site, place: u32, items: &mut Items<Item>)
    requires formed { InForm node.now }
    requires few { length site.now.choices ≤ 1 }
    requires slots { HaveSlots site.now.choices }
    requires staged { is_pusharg node.now.op ≡ true → AreFirst site.now.staged.arguments }
    requires empty { items.old ≡ [] }
    ensures { items.new ≡ site_items reach node.now site.now place }
{
    let Site {
        frame,
        choices,
        staged,
    } = site;
    match node.op {
        Op::Binary(_, _)
        | Op::Wide(_, _)
        | Op::Unary(_)
        | Op::Plain(PlainOp::Movi | PlainOp::VaStart)
        | Op::Retval(_) => value_items(node, choices, items),
        Op::Load(t, at) => put_load(node, t, at, items),
        Op::Store(t, at) => put_store(node, t, at, items),
        Op::Getarg(t) => put_getarg(node, t, items),
        Op::Plain(PlainOp::VaArg) => put_next_argument(node, items),
        Op::Control(ControlOp::Pusharg, _) => put_argument(node, staged_count(staged), items),
        _ => put_control(
            node,
            frame.size,
            frame.homes,
            frame.saved,
            place,
            reach,
            items,
        ),
    }
}

/// AArch64 as a target: `lg_sel::select`, `lg_sel::append_node` and the loop of lg_asm take it as a type.
pub struct Aarch64;

impl Backend for Aarch64 {
    type Item = Item;

    type List = Items<Item>;

    ghost code = { a64_code };

    ghost needed = { needs };

    ghost spelling = { spelling };

    ghost fits = { IsInstr };

    ghost is_store = { a64_stores };

    ghost is_given = { IsGiven };

    ghost items_of = { site_items };

    fn target() -> Target {
        Target::Aarch64
    }

    fn what_holds() {}

    fn needs(node: &Node) -> Needs {
        temporaries::needs(node)
    }

    fn put(reach: Reach, node: &Node, site: &Site, place: u32, items: &mut Items<Item>)
        requires given { IsGiven node.now site.now }
        requires empty { items.old ≡ [] }
        ensures made { items.new ≡ site_items reach node.now site.now place }
        ensures few { words_in items.new ≤ 64 }
    {
        put_items(reach, node, site, place, items);
        // They are few.
        let _list = items.as_slice();
    }
}
