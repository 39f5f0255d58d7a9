//! A law, on a function with nothing to do.

ghost use Rattle.sqlite_trees.specs.Tree.{Trees};
ghost use Rattle.shop_types.specs.declared.audit.Audit.{Audit};
ghost use Rattle.books_audit.specs.declared.tables.TableRows.{TableRows};
ghost use Rattle.books_audit.specs.Audits.{IsAuditOf};
ghost use Rattle.books_audit.specs.Shops.{HaveTables, IsAuditOfShop};

/// If rows are a shop's tables', their audit is right for the books for which the tables stand. The audit is sound
/// exactly if the tables stand for sound books, and it counts the books' copies. The same rows in another order have
/// the same audit.
pub fn audit_is_of_shop()
    ensures shop { (trees : Trees) (tables : TableRows) → HaveTables trees tables → (audit : Audit)
        → IsAuditOf tables audit → IsAuditOfShop trees audit }
    ensures order { (trees : Trees) (tables others : TableRows) → HaveTables trees tables → HaveTables trees others
        → (audit : Audit) → IsAuditOf tables audit → IsAuditOf others audit }
{}
