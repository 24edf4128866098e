// Each shape of code on a record or a row that is lent, proved once for any type.
#![tactic(auto)]

pub mod ask;
pub mod at;
pub mod every;
pub mod every_with;
pub mod lender;
pub mod lender_with;
pub mod lent;
pub mod lent_ask;
pub mod set;
pub mod table;

#[cfg(test)]
mod tests {
    use crate::ask::ask;
    use crate::at::at;
    use crate::every::every;
    use crate::every_with::every_with;
    use crate::lender::lender;
    use crate::lender_with::lender_with;
    use crate::lent::lent;
    use crate::lent_ask::lent_ask;
    use crate::set::set;
    use crate::table::table;

    #[derive(Clone, Copy)]
    struct Node {
        parent: u8,
        state: u8,
    }

    fn with_state(node: Node, state: u8) -> Node {
        Node { state, ..node }
    }

    fn had_state(node: Node, state: u8) -> bool {
        node.state == state
    }

    fn set_state(node: &mut Node, state: u8) {
        set(node, state, with_state);
    }

    fn ask_state(node: &mut Node, state: u8) -> bool {
        ask(node, state, had_state, with_state)
    }

    fn pair(had: bool, node: Node) -> (bool, Node) {
        (had, node)
    }

    fn node_at(row: &[Node], i: usize) -> Node {
        at(
            row,
            i,
            || Node {
                parent: 255,
                state: 255,
            },
        )
    }

    fn idle(node: Node) -> bool {
        node.state != 0
    }

    fn idle_but(node: Node, i: usize, but: usize) -> bool {
        (i == but) | (node.state != 0)
    }

    fn all_idle(row: &[Node], n: usize) -> bool {
        every(row, n, node_at, idle)
    }

    fn others_idle(row: &[Node], n: usize, but: usize) -> bool {
        every_with(row, n, but, node_at, idle_but)
    }

    fn numbered(k: u8) -> Node {
        Node {
            parent: k,
            state: 0,
        }
    }

    // each shape at one record, or at a row of two, the second of which is not idle
    #[test]
    fn each_shape_at_a_record(rt: HostRuntime) {
        let node = Node {
            parent: 3,
            state: 7,
        };
        let after = lent(node, 9, set_state);
        assert_eq!(rt; after.parent, 3);
        assert_eq!(rt; after.state, 9);
        let (had, left) = lent_ask(node, 9, ask_state, pair);
        assert!(rt; !had);
        assert_eq!(rt; left.state, 9);
        let row = [
            node,
            Node {
                parent: 4,
                state: 0,
            },
        ];
        assert_eq!(rt; node_at(&row, 1).parent, 4);
        assert_eq!(rt; node_at(&row, 2).parent, 255);
        assert!(rt; lender(row, 1, all_idle));
        assert!(rt; !lender(row, 2, all_idle));
        assert!(rt; lender_with(row, 2, 1, others_idle));
        assert!(rt; !lender_with(row, 2, 0, others_idle));
        let filled: [Node; 3] = table(node, 2, numbered);
        assert_eq!(rt; filled[0].parent, 0);
        assert_eq!(rt; filled[1].parent, 1);
        assert_eq!(rt; filled[2].state, 7);
    }
}
