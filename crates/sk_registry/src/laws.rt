//! Laws of the table: functions that do nothing, whose contracts are the laws.

ghost use Rattle.std.specs.Prelude.{◌≡◌, ◌≢◌, ◌<◌, [], ◌++◌, ◌∷◌, ℕ, true, false, None, List, Contains, count_by};
ghost use Rattle.sk_registry.specs.declared.joined.Joined.{Joined};
ghost use Rattle.sk_registry.specs.Table.{is_named, has_name, refusal, IsTable, IsBefore};
ghost use Rattle.sk_registry.specs.Events.{RegistryEvent, Join, Leave, after, table_after, has_left, Joining, index, told, IsToldOf};

/// Nothing has happened to the table of nobody, and what happens next is one step from the table so
/// far.
pub fn tables_go_on_step_by_step()
    ensures first { table_after [] ≡ [] }
    ensures next { (events : List RegistryEvent) (event : RegistryEvent) →
        table_after (events ++ event ∷ []) ≡ after (table_after events) event }
{}

/// Whoever leaves is gone, nobody else is, and who leaves right after joining leaves the table as
/// it was.
pub fn only_that_name_leaves()
    ensures gone { (table : List Joined) (name : List ℕ) →
        has_name (after table (Leave name)) name ≡ false }
    ensures others { (table : List Joined) (name other : List ℕ) → name ≢ other →
        has_name (after table (Leave name)) other ≡ has_name table other }
    ensures undoes { (table : List Joined) (who : Joined) → refusal table who.name ≡ None →
        after (after table (Join who)) (Leave who.name) ≡ table }
{}

/// Whatever happens, the names in the table are distinct, and there are at most 36.
pub fn names_are_distinct()
    ensures { (events : List RegistryEvent) → IsTable (table_after events) }
{}

/// Those in the table are those that joined, weren't refused, and whose name hasn't left since; of
/// each name there is one such joining.
pub fn each_is_there_by_one_joining()
    ensures there { (events : List RegistryEvent) (joining : Joining events) →
        Contains (table_after events) joining.who }
    ensures by_one { (events : List RegistryEvent) (who : Joined) →
        Contains (table_after events) who → (joining : Joining events) × (joining.who ≡ who) }
    ensures no_other { (events : List RegistryEvent) (one other : Joining events) →
        one.who.name ≡ other.who.name → index one ≡ index other }
{}

/// They stand in order of joining.
pub fn they_stand_in_order_of_joining()
    ensures { (events : List RegistryEvent) (earlier later : Joining events) →
        index earlier < index later → IsBefore (table_after events) earlier.who later.who }
{}

/// Of two that are in the table at once the later was told of the earlier, and once; and the
/// earlier wasn't told of the later. Where the earlier was told of one of the later's name, that
/// one left before the later came.
pub fn later_was_told_of_earlier()
    ensures of_earlier { (events : List RegistryEvent) (earlier later : Joining events) →
        index earlier < index later → IsToldOf later earlier }
    ensures in_list { (events : List RegistryEvent) (one other : Joining events) →
        IsToldOf one other → Contains (told one) other.who }
    ensures told { (events : List RegistryEvent) (earlier later : Joining events) →
        index earlier < index later → Contains (told later) earlier.who }
    ensures once { (events : List RegistryEvent) (earlier later : Joining events) →
        index earlier < index later → count_by (is_named earlier.who.name) (told later) ≡ 1 }
    ensures not_of_later { (events : List RegistryEvent) (earlier later : Joining events) →
        index earlier < index later → IsToldOf earlier later → ⊥ }
    ensures former { (events : List RegistryEvent) (earlier later : Joining events)
        (between : List RegistryEvent) →
        later.before ≡ earlier.before ++ Join earlier.who ∷ between →
        has_name (told earlier) later.who.name ≡ true → has_left between later.who.name ≡ true }
{}
